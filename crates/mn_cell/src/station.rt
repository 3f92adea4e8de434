//! A node with the pass that owns its list.
ghost use Rattle.std.specs.Prelude.{◌≡◌, [], Some, IfOk, IfErr};
ghost use Rattle.mn_actors.specs.declared.actor.Actor.TheVariants.{Node as AtNode};
ghost use Rattle.mn_actors.specs.Lists.{held};
ghost use Rattle.mn_actors.specs.Sight.{board_of, view_of};
ghost use Rattle.mn_runs.specs.Protocol.{entries_of, start_of};
ghost use Rattle.mn_cell.specs.Passes.{OwnsJust};
ghost use Rattle.mn_cell.specs.Station.{HasMadeEntries, IsNodeAtStart};

use crate::named::Named;
use crate::owing::Owing;
use mn_actors::Pass;
use mn_base::NodeNo;
use mn_io::Disk;
use mn_law::CoreLaw;
use mn_node::Node;
use std::alloc::Global;
use std::marker::{Model, PhantomData};

mod calls;

/// A memory node of the run that `N` names, with the pass that owns its list of entries. Contracts
/// see its number, the node, the list and the place that the pass knows.
///
/// The list is the pass's, which is of the run's board; its entries stand in the lists of their
/// callers. Each is one that the records allow which the node started with, and the node has the
/// records that they leave.
#[derive(Drop)]
pub struct Station<N: Named, D: Disk> {
    pub(crate) number: NodeNo,
    pub(crate) node: Node<D>,
    pub(crate) owing: Owing,
    pub(crate) pass: Option<Pass<CoreLaw>>,
    pub(crate) named: PhantomData<N>,
}

impl<N: Named, D: Disk> Model for Station<N, D> {
    ghost use Rattle.mn_runs.specs.Protocol.{start_of, entries_of};
    ghost use Rattle.mn_cell.specs.Promises.{IsOwing};
    ghost use Rattle.mn_cell.specs.Station.{HasMadeEntries, IsPassOf, StationState, known_by};
    ghost use Rattle.mn_cell.specs.Station.{list_by};

    ghost Value = { StationState D };

    ghost view = { λ s. record {
      number = s.number;
      node = s.node;
      list = list_by s.number s.pass;
      known = known_by s.pass;
    } };

    ghost invariant = { λ s. IsPassOf N.board s.number (list_by s.number s.pass) s.pass
        × IsOwing (list_by s.number s.pass) s.owing.size s.owing.owed
        × HasMadeEntries D.state D.faults (start_of N.records) s.number (N.faults s.number.0)
        (N.honest s.number.0) (entries_of (list_by s.number s.pass)) s.node };
}

/// A node and a pass of which no station was made: there was no memory.
#[derive(Drop)]
pub struct Refused<D: Disk> {
    pub node: Node<D>,
    pub pass: Pass<CoreLaw>,
}

impl<N: Named, D: Disk> Station<N, D> {
    /// The station of a node with which the run starts, with an empty list. `Refused` comes for
    /// want of memory alone.
    pub fn new(
        alloc: Global,
        node: Node<D>,
        number: NodeNo,
        pass: Pass<CoreLaw>,
    ) -> Result<Station<N, D>, Refused<D>>
        requires node { IsNodeAtStart D.state D.faults (start_of N.records) number
            (N.faults number.0)
            (N.honest number.0) node }
        requires board { board_of pass ≡ N.board }
        requires owns { OwnsJust (view_of pass) (AtNode number) }
        requires list { held (view_of pass) (AtNode number) ≡ Some [] }
        ensures made { IfOk result (λ station. station
            ≡ record { number = number; node = node; list = []; known = (view_of pass).known }) }
        ensures refused { IfErr result (λ refused. (refused.node ≡ node) × (refused.pass ≡ pass)) }
    {
        match Owing::new(alloc) {
            Ok(owing) => Ok(Station {
                number,
                node,
                owing,
                pass: Some(pass),
                named: PhantomData,
            }),
            Err(_) => Err(Refused { node, pass }),
        }
    }

    /// Tells what the node and its entries come to, whenever no call is under way.
    pub fn made(&self)
        ensures { HasMadeEntries D.state D.faults (start_of N.records) self.now.number
            (N.faults self.now.number.0) (N.honest self.now.number.0) (entries_of self.now.list)
            self.now.node }
    {
        let _ = &self.node;
    }

    /// The node and its pass, which has its list.
    pub fn into_parts(self) -> (Node<D>, Pass<CoreLaw>)
        ensures node { result.0 ≡ self.node }
        ensures made { HasMadeEntries D.state D.faults (start_of N.records) self.number
            (N.faults self.number.0) (N.honest self.number.0) (entries_of self.list) self.node }
        ensures board { board_of result.1 ≡ N.board }
        ensures owns { OwnsJust (view_of result.1) (AtNode self.number) }
        ensures pass { held (view_of result.1) (AtNode self.number) ≡ Some self.list }
        ensures known { (view_of result.1).known ≡ self.known }
    {
        let Station {
            number: _,
            node,
            owing: _,
            pass,
            named: _,
        } = self;
        let Some(pass) = pass else { unreachable!() };
        (node, pass)
    }
}
