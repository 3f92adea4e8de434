ghost use Rattle.std.specs.Prelude.{◌≡◌, ◌<◌, ◌↔◌, ◌++◌, [], Some, length, map, drop};
ghost use Rattle.std.specs.Prelude.{IfOk, OnOk, IsSome};
ghost use Rattle.std.specs.Option.{option_to_list};
ghost use Rattle.mn_coord.specs.Coordination.{try_request};
ghost use Rattle.mn_coord.specs.Tries.{tries_of};

use mn_base::{NoMemory, NodeNo, Tid, TryCopy};
use mn_mini::{Minitransaction, Request};
use std::alloc::Global;
use std::collections::VecDeque;
use std::marker::Model;

/// The Prepares or the Exec that weren't handed out. Contracts see them as a list. The first two
/// lie in place, since most minitransactions have no more participants.
#[derive(Debug)]
pub struct Requests {
    first: Option<Request>,
    second: Option<Request>,
    others: Others,
}

/// Those behind the first two, which lie elsewhere.
#[derive(Debug, Drop)]
enum Others {
    Nothing,
    Several(Box<VecDeque<Request>>),
}

/// They are let go by a call, which is proved once, and not in place wherever they go.
impl Drop for Requests {
    fn drop(self) {
        let Requests {
            first,
            second,
            others,
        } = self;
        drop(first);
        drop(second);
        drop(others);
    }
}

impl Model for Requests {
    ghost use Rattle.std.specs.Prelude.{◌++◌, List};
    ghost use Rattle.std.specs.Option.{option_to_list};
    ghost use Rattle.mn_mini.specs.declared.request.Request.{Request};
    ghost use Rattle.mn_coord.specs.Tries.{others_in};

    ghost Value = { List Request };

    ghost view = { λ t. option_to_list t.first ++ (option_to_list t.second ++ others_in t.others) };
}

/// Puts the request by which the participant takes part into this place.
#[inline(never)]
fn put_try(
    place: &mut Option<Request>,
    alloc: Global,
    tid: Tid,
    mini: &Minitransaction,
    node: NodeNo,
) -> Result<(), NoMemory>
    ensures { OnOk result (place.new ≡ Some (try_request tid mini.now node)) }
{
    let part = mini.part(alloc, node)?;
    if mini.participants().as_slice().len() == 1 {
        *place = Some(Request::Exec { tid, part });
    } else {
        *place = Some(Request::Prepare {
            tid,
            participants: mini.participants().try_copy(alloc)?,
            part,
        });
    }
    Ok(())
}

/// The request by which the participant takes part.
fn try_of(
    alloc: Global,
    tid: Tid,
    mini: &Minitransaction,
    node: NodeNo,
) -> Result<Request, NoMemory>
    ensures { IfOk result (λ request. request ≡ try_request tid mini.now node) }
{
    let mut place = None;
    put_try(&mut place, alloc, tid, mini, node)?;
    match place {
        Some(request) => Ok(request),
        None => unreachable!(),
    }
}

/// The requests by which these nodes take part, in order.
#[inline(never)]
fn tries_for(
    alloc: Global,
    tid: Tid,
    mini: &Minitransaction,
    nodes: &[NodeNo],
) -> Result<VecDeque<Request>, NoMemory>
    ensures { IfOk result (λ tries. tries.items ≡ map (try_request tid mini.now) nodes.now) }
{
    let mut tries = VecDeque::with_capacity(alloc, nodes.len())?;
    for node in nodes {
        tries.push_back(try_of(alloc, tid, mini, *node)?)?;
    }
    Ok(tries)
}

impl Requests {
    /// None. It takes no memory.
    pub fn none() -> Self
        ensures { result ≡ [] }
    {
        Requests {
            first: None,
            second: None,
            others: Others::Nothing,
        }
    }

    /// The requests by which the participants take part, in order, made where they stay. NoMemory:
    /// there was no memory for them.
    pub fn make(&mut self, alloc: Global, tid: Tid, mini: &Minitransaction) -> Result<(), NoMemory>
        requires none { self.old ≡ [] }
        ensures { OnOk result (self.new ≡ tries_of tid mini.now) }
    {
        let [node, more @ ..] = mini.participants().as_slice() else {
            return Ok(());
        };
        put_try(&mut self.first, alloc, tid, mini, *node)?;
        let [node, others @ ..] = more else {
            return Ok(());
        };
        put_try(&mut self.second, alloc, tid, mini, *node)?;
        if !others.is_empty() {
            let tries = tries_for(alloc, tid, mini, others)?;
            self.others = Others::Several(Box::new(alloc, tries)?);
        }
        Ok(())
    }

    /// The next one, if there is one. It takes no memory.
    pub fn pop_front(&mut self) -> Option<Request>
        ensures items { self.old ≡ option_to_list result ++ self.new }
        ensures variant { IsSome result ↔ (0 < length self.old) }
        ensures rest { self.new ≡ drop 1 self.old }
    {
        if self.first.is_some() {
            return self.first.take();
        }
        if self.second.is_some() {
            return self.second.take();
        }
        match &mut self.others {
            Others::Nothing => None,
            Others::Several(others) => others.pop_front(),
        }
    }
}
