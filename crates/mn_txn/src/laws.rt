ghost use Rattle.std.specs.Prelude.{◌≡◌};
ghost use Rattle.mn_txn.specs.State.{State};
ghost use Rattle.mn_txn.specs.Plan.{plan_of};
ghost use Rattle.mn_txn.specs.Laws.{PlansAreInOrder, PagesStay, PlansNameTheirPlaces};
ghost use Rattle.mn_txn.specs.Laws.{PlansNameNoOther, PlansHoldTheirBytes, PlansCountOn};
ghost use Rattle.mn_txn.specs.Attempt.{AttemptsStandInOrder, DoneIsPlanned, UnmetIsPlanned};
ghost use Rattle.mn_txn.specs.Children.{SnapshotIsPlanned, BranchIsPlanned, ChildrenStandInOrder};
ghost use Rattle.mn_txn.specs.Slots.{NewSlotsAreNext};

// Each law is the contract of a function that does nothing: what it says is proved, and may be
// used, by calling it.

/// The items of a plan are in order: its compares before its writes, and among each pages before
/// entries and entries before counts, entries by node and then by number, and counts by node. Pages
/// stand as they joined.
pub fn plans_are_in_order()
    ensures order { PlansAreInOrder }
    ensures pages { PagesStay }
{}

/// A plan is over the transaction's nodes, compares exactly the places of the read set, and writes
/// exactly the places of the writes.
pub fn plans_name_their_places()
    ensures nodes { (t : State) → (plan_of t).nodes ≡ t.nodes }
    ensures places { PlansNameTheirPlaces }
    ensures others { PlansNameNoOther }
{}

/// Each item of a plan is a compare of bytes that were read or a write of bytes that are to be
/// written.
pub fn plans_hold_their_bytes()
    ensures { PlansHoldTheirBytes }
{}

/// Where each page or entry that was read and is to be written gets the next sequence number, it
/// does in the plan.
pub fn plans_count_on()
    ensures { PlansCountOn }
{}

/// The plan of a transaction whose Checks are met does what the transaction does, wherever its
/// compares hold.
pub fn done_is_planned()
    ensures { DoneIsPlanned }
{
    mn_tree::moves_tell();
    mn_tree::moves_read();
    mn_tree::moves_come_once();
    mn_tree::moves_are_placed();
    mn_tree::moves_may_be_quiet();
    mn_tree::reads_are_draft();
    mn_plans::next_slots_are_free();
    mn_plans::writes_leave_store();
    mn_plans::compares_tell();
    mn_plans::numbers_go_on();
    plans_are_in_order();
}

/// The plan of a transaction with a Check that is unmet compares what the steps found, and the
/// reply is the transaction's wherever that holds.
pub fn unmet_is_planned()
    ensures { UnmetIsPlanned }
{
    mn_tree::moves_tell();
    mn_tree::moves_read();
    mn_tree::moves_come_once();
    mn_tree::reads_are_draft();
    mn_plans::compares_tell();
    mn_plans::numbers_go_on();
    plans_are_in_order();
}

/// What a transaction compares and writes stands in the order of items as it is listed.
pub fn attempts_stand_in_order()
    ensures { AttemptsStandInOrder }
{}

/// The plan of a Snapshot that the kept catalog admits does what the Snapshot does, wherever its
/// compares hold: it freezes the version, and its child has a copy of the version's root.
pub fn snapshot_is_planned()
    ensures { SnapshotIsPlanned }
{
    mn_page::child_is_shown();
    mn_page::copies_are_pages();
    mn_plans::next_slots_are_free();
    mn_plans::writes_leave_versions();
    mn_plans::compares_tell();
    mn_plans::numbers_go_on();
    plans_are_in_order();
}

/// The plan of a Branch that the kept catalog admits does what the Branch does, wherever its
/// compares hold: the version's entry stays.
pub fn branch_is_planned()
    ensures { BranchIsPlanned }
{
    mn_page::child_is_shown();
    mn_page::copies_are_pages();
    mn_plans::next_slots_are_free();
    mn_plans::writes_leave_versions();
    mn_plans::compares_tell();
    mn_plans::numbers_go_on();
    plans_are_in_order();
}

/// What a Snapshot or a Branch compares and writes stands in the order of items as it is listed.
pub fn children_stand_in_order()
    ensures { ChildrenStandInOrder }
{}

/// Where at least so many slots are free, the slots that are planned for them are the next of their
/// nodes.
pub fn new_slots_are_next()
    ensures { NewSlotsAreNext }
{}
