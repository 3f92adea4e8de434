//! The board and its passes.
ghost use Rattle.std.specs.Prelude.{◌≡◌, ◌≤◌, []};

use crate::clock::{Clock, Size, View};
use crate::law::Law;
use atomic_table::{Seat, Table};
use std::alloc::Global;

mod calls;

/// The shared clock. Its value is the number of entries so far.
#[derive(Drop)]
pub struct Board<L: Law> {
    table: Table<(), View<L::Entry>, Size, Clock<L>, Global>,
    ghost one_word: { table.shared.table_id.words ≡ 1 },
    ghost no_slot: { table.shared.table_id.slots ≡ 0 },
    ghost few: { (table.shared.key.nodes ≤ 8) × (table.shared.key.clients ≤ 21) },
}

/// The leave to add entries for the actors that it owns, whose lists it knows, and a place that the
/// clock has reached.
#[derive(Drop)]
pub struct Pass<L: Law> {
    known: u64,
    seat: Seat<(), View<L::Entry>>,
    ghost known_is: { known ≡ seat.me.0.known },
    ghost bare: { seat.me.1 ≡ [] },
}
