ghost use Rattle.mn_promise.specs.Promise.{IsMeaning};
ghost use Rattle.mn_top.specs.Crashes.{NextStartsThere};
ghost use Rattle.mn_top.specs.Promise.{HoldsStore};

use mn_mini::short_is_like_whole;
use mn_plans::holds_one;
use mn_redo::one_list;
use mn_serial::shortened_stays_opened;

/// Whatever a stop leaves of honest disks behind a run is opened again: the next call starts from
/// the store of that run's history, in which all that was replied to stands.
pub fn next_starts_there()
    ensures { NextStartsThere }
{
    short_is_like_whole();
    holds_one();
    one_list();
    shortened_stays_opened();
}

/// The bytes of disks hold one store at most, and new disks hold the empty one.
pub fn disks_hold_one_store()
    ensures { IsMeaning HoldsStore }
{
    short_is_like_whole();
    holds_one();
    one_list();
    shortened_stays_opened();
}
