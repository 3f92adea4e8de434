//! A look at the clock for a whole run between two turns.
ghost use Rattle.std.specs.Prelude.{◌≡◌, ℕ, List, vec_capacity};
ghost use Rattle.mn_actors.specs.Sight.{view_of};
ghost use Rattle.mn_base.specs.declared.ids.ClientNo.{ClientNo};
ghost use Rattle.mn_cell.specs.Hearing.{StationsStay};
ghost use Rattle.mn_runs.specs.declared.entry.Entry.{Entry};
ghost use Rattle.mn_runs.specs.Protocol.{start_of};
ghost use Rattle.mn_callers.specs.Hearing.{GoesOnFrom, HaveGrown};
ghost use Rattle.mn_callers.specs.Logs.{HasLog};
ghost use Rattle.mn_callers.specs.Plays.{HasTrail, IsAtRest, PlayState, state_at};

use crate::callers::Callers;
use crate::table::Table;
use mn_actors::Pass;
use mn_cell::{Named, hear_all};
use mn_io::Disk;
use mn_law::CoreLaw;

impl<N: Named, D: Disk> Table<N, D> {
    /// Looks at the clock for all callers and nodes: what they have is one log, which `rest` then
    /// knows. It is any log that was known before, with the entries by which the callers' lists
    /// went on since then.
    pub fn hear(&mut self, rest: &mut Pass<CoreLaw>, callers: &Callers)
        requires rests { IsAtRest N.board (start_of N.records)
            (state_at self.old rest.old callers.now) }
        ensures rests { IsAtRest N.board (start_of N.records)
            (state_at self.new rest.new callers.now) }
        ensures stations { StationsStay self.old.stations.items self.new.stations.items }
        ensures room { vec_capacity self.new.stations ≡ vec_capacity self.old.stations }
        ensures log { HasTrail self.new.stations.items (view_of rest.new).known callers.now }
        ensures since { (before : PlayState D) (past : List Entry)
            (own : ClientNo → List (ℕ × Entry)) → HasLog before past
            → HaveGrown own before callers.now
            → GoesOnFrom own past (state_at self.new rest.new callers.now) }
    {
        let _ = callers;
        hear_all(&self.board, rest, &mut self.stations);
        // That a node's entries are of callers shows by what its station has made.
        self.made();
    }
}
