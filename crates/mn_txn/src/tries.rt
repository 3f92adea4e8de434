ghost use Rattle.mn_txn.specs.Tries.{PlannedIsDone, WornIsChanged, TriesShowCauses, WornPagesShow};
ghost use Rattle.mn_txn.specs.Tries.{DoneMayBePlanned, UnmetMayBePlanned, FreeSlotsAreLeft};

// Laws of what the answers of plans and of slots tell of a try.

/// A try whose Checks are met is done, once its new pages have the slots that are planned and no
/// page that it is to write was read with the last sequence number.
pub fn planned_is_done()
    ensures { PlannedIsDone }
{
    mn_tree::moves_read();
    mn_tree::placed_are_put();
}

/// A plan of a try that is refused as worn names a page that the try changed and that was read with
/// the last sequence number, unless bytes were read at a slot that the counts have free.
pub fn worn_is_changed()
    ensures { WornIsChanged }
{
    mn_tree::moves_read();
    mn_tree::placed_are_put();
}

/// What a try read of its version shows the slots that its transaction needs and the old pages that
/// it writes: its new pages and those that it changed.
pub fn tries_show_causes()
    ensures { TriesShowCauses }
{
    mn_tree::tries_show_needs();
}

/// A page that such a try changed and that was read with the last sequence number may be answered
/// as worn.
pub fn worn_pages_show()
    ensures { WornPagesShow }
{
    mn_tree::tries_show_needs();
}

/// The read set and the writes of a try with 1 to 16 steps are 1 to 1,024 items inside the space.
pub fn done_may_be_planned()
    ensures { DoneMayBePlanned }
{
    mn_tree::moves_read();
    mn_tree::moves_are_few();
    mn_tree::moves_touch_leaves();
    mn_tree::placed_are_put();
    mn_tree::placed_fill_slots();
}

/// So is the read set of one with a Check that is unmet.
pub fn unmet_may_be_planned()
    ensures { UnmetMayBePlanned }
{
    mn_tree::moves_read();
    mn_tree::moves_are_few();
    mn_tree::moves_touch_leaves();
}

/// The free slots that a refusal for want of slots names are those that the counts leave.
pub fn free_slots_are_left()
    ensures { FreeSlotsAreLeft }
{}
