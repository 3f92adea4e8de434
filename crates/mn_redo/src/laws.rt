ghost use Rattle.std.specs.Prelude.{◌≡◌, ℕ, List};
ghost use Rattle.mn_redo.specs.Grammar.{Stands, IsDamaged};

/// Bytes stand for one list at most.
pub fn one_list()
    ensures { (node nodes : ℕ) (content : List ℕ) (bodies others : List (List ℕ))
        → Stands node nodes content bodies → Stands node nodes content others → bodies ≡ others }
{}

/// Damaged bytes stand for no list.
pub fn damaged_or_not()
    ensures { (node nodes : ℕ) (content : List ℕ) (at : ℕ) (bodies : List (List ℕ))
        → IsDamaged node nodes content at → Stands node nodes content bodies → ⊥ }
{}

/// Bytes are damaged at one place at most.
pub fn one_place()
    ensures { (node nodes : ℕ) (content : List ℕ) (at other : ℕ) → IsDamaged node nodes content at
        → IsDamaged node nodes content other → at ≡ other }
{}
