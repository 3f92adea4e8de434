ghost use Rattle.mn_page.specs.Holds.{HoldsOne};
ghost use Rattle.mn_plans.specs.Plans.{PutIsPlanned, SplitIsPlanned};
ghost use Rattle.mn_plans.specs.Growth.{ComparesTell, NumbersGoOn, NextSlotsAreFree};
ghost use Rattle.mn_plans.specs.Growth.{WritesLeaveStore, WritesLeaveVersions};

// Each law is the contract of a function that does nothing: what it says is proved, and may be
// used, by calling it.

// Plans

/// A memory holds at most one store.
pub fn holds_one()
    ensures { HoldsOne }
{}

/// A Put in place is planned.
pub fn put_is_planned()
    ensures { PutIsPlanned }
{}

/// A Put that splits a root leaf is planned.
pub fn split_is_planned()
    ensures { SplitIsPlanned }
{}

/// Where compares of pages, entries and counts are met, the memory's forest has just these.
pub fn compares_tell()
    ensures { ComparesTell }
{}

/// A page with the next number goes on from the one that stands there, and a new one from a free
/// slot.
pub fn numbers_go_on()
    ensures { NumbersGoOn }
{}

/// Slots that are each the first free one of their node are free in the memory.
pub fn next_slots_are_free()
    ensures { NextSlotsAreFree }
{}

/// Pages that are written again, new ones in next slots, and counts leave a memory that holds the
/// store that they show.
pub fn writes_leave_store()
    ensures { WritesLeaveStore }
{}

/// So do pages and counts with entries that are written between them, in their places or behind the
/// others.
pub fn writes_leave_versions()
    ensures { WritesLeaveVersions }
{}
