/// Which entries a log may hold. Legality reads no more than the lists of the entry's own actors.
pub trait Law {
    ghost use Rattle.std.specs.Prelude.{ℕ, List};
    ghost use Rattle.mn_actors.specs.Lines.{Line};

    type Entry: Drop;

    // Of the node's list, the client's list, and the entry with the actors that make it. A list
    // holds entries with their places. The list of an absent actor is empty.
    ghost legal: { List (ℕ × Self.Entry) → List (ℕ × Self.Entry) → Line Self.Entry → Type 0 };
}
