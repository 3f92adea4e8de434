//! Nodes behind locks, as one thread reaches them.
use crate::alarm::Alarm;
use mn_actors::{Board, Pass};
use mn_base::{Answer, Busy, NodeNo, StopAt};
use mn_callers::{Transport, put_alone};
use mn_cell::{Cells, Named};
use mn_io::Disk;
use mn_law::CoreLaw;
use mn_mini::{NodeReply, Request};
use mn_node::RestartError;
use mn_runs::{ClientList, What};
use std::alloc::Global;
use std::sync::Wait;

/// The board of a run and its cells, of so many nodes, and the alarm that clients ring.
#[derive(Drop)]
pub struct Wires<'a, N: Named, D: Disk, T: Wait> {
    pub rt: &'a T,
    pub board: &'a Board<CoreLaw>,
    pub cells: &'a Cells<N, D>,
    pub nodes: u8,
    pub alarm: &'a Alarm,
}

/// Whether it is an answer after which a recovery coordinator is to look at the nodes.
fn is_trouble(what: &What) -> bool {
    match what {
        What::Answered { answer, .. } => matches!(
            answer,
            Answer::Down { .. }
                | Answer::InDoubt { .. }
                | Answer::Busy {
                    cause: Busy::Lock { .. }
                }
        ),
        _ => false,
    }
}

/// Whether the last entry of the list is such an answer.
fn ends_in_trouble(list: &ClientList) -> bool {
    match list.as_slice() {
        [.., (_, last)] => is_trouble(&last.what),
        [] => false,
    }
}

impl<'a, N: Named, D: Disk, T: Wait> Transport for Wires<'a, N, D, T> {
    ghost use Rattle.std.specs.Prelude.{⊤, length};
    ghost use Rattle.mn_cell.specs.Filled.{filled_in};
    ghost use Rattle.mn_cluster.specs.Wired.{IsWired};
    ghost use Rattle.mn_actors.specs.Sight.{id_of};
    ghost use Rattle.mn_runs.specs.Protocol.{start_of};

    ghost board = { N.board };

    ghost start = { start_of N.records };

    ghost ready = { λ w. IsWired N.board (length N.records) (id_of w.board.now) w.nodes
        (filled_in w.cells.now) };

    ghost went = { λ old new own. ⊤ };

    fn nodes(&self) -> u8 {
        self.nodes
    }

    #[inline(always)]
    fn put(&mut self, pass: &mut Pass<CoreLaw>, list: &mut ClientList, what: What) {
        put_alone(self.board, pass, list, what);
    }

    #[inline(always)]
    fn send(
        &mut self,
        alloc: Global,
        pass: &mut Pass<CoreLaw>,
        list: &mut ClientList,
        node: NodeNo,
        request: Request,
        stop: Option<StopAt>,
    ) -> NodeReply {
        self.cells.call(self.rt, alloc, node, self.board, pass, list, request, stop)
    }

    fn start_again(
        &mut self,
        alloc: Global,
        pass: &mut Pass<CoreLaw>,
        list: &mut ClientList,
        node: NodeNo,
    ) -> Result<(), RestartError> {
        match self
            .cells
            .restart(self.rt, alloc, node, self.board, pass, list)
        {
            Ok(_kept) => Ok(()),
            Err(error) => Err(error),
        }
    }

    fn pause(&mut self, list: &ClientList, died: bool) {
        if died || ends_in_trouble(list) {
            self.alarm.ring(self.rt);
        }
    }

    ghost stays = { λ w. tt };

    ghost goes_on = { λ a b c own later one two. tt };
}
