//! The meanings of a run.
use std::marker::Brand;

/// Names what a run begins with. What lies behind a lock is known by its type alone, so its type
/// names it. Each call of a program that makes a board picks these.
pub trait Named {
    ghost use Rattle.std.specs.Prelude.{ℕ, List, ◌≡◌};
    ghost use Rattle.atomic_table.specs.Seated.{TableId};
    ghost use Rattle.mn_mini.specs.declared.record.Record.{Record};
    ghost use Rattle.mn_runs.specs.Protocol.{run_number, start_of};

    // The board on which its entries are put.
    ghost board: { TableId };

    // Its number.
    ghost run: { ℕ };

    // For each node, from 0 on, the records that it started with, the oldest first.
    ghost records: { List (List Record) };

    // The number is one above the greatest run of the records, or 1 where there are none.
    ghost numbered: { run ≡ run_number (start_of records) };

    // For each number of a node, the count of faults that its disk started with.
    ghost faults: { ℕ → ℕ };

    // For each number of a node, whether its disk was honest.
    ghost honest: { ℕ → Type 0 };
}

impl Named for Brand {
    ghost use Rattle.std.specs.Prelude.{[], refl};
    ghost use Rattle.mn_cell.specs.Station.{no_board};

    ghost board = { no_board };

    ghost run = { 1 };

    ghost records = { [] };

    ghost numbered = { refl };

    ghost faults = { λ number. 0 };

    ghost honest = { λ number. ⊥ };
}
