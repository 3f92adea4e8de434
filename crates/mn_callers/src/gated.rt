//! A transport whose calls pass a gate.
use crate::transport::Transport;
use mn_actors::Pass;
use mn_base::{Gate, NodeNo, StopAt};
use mn_law::CoreLaw;
use mn_mini::{NodeReply, Request};
use mn_node::RestartError;
use mn_runs::{ClientList, What};
use std::alloc::Global;

/// A transport with a gate before and behind each call of a node.
#[derive(Drop)]
pub struct Gated<'a, X: Transport, G: Gate> {
    pub inner: X,
    pub gate: &'a G,
}

impl<'a, X: Transport, G: Gate> Transport for Gated<'a, X, G> {
    ghost board = { X.board };

    ghost start = { X.start };

    ghost ready = { λ t. X.ready t.inner };

    ghost went = { λ old new own. X.went old.inner new.inner own };

    fn nodes(&self) -> u8 {
        self.inner.nodes()
    }

    #[inline(always)]
    fn put(&mut self, pass: &mut Pass<CoreLaw>, list: &mut ClientList, what: What) {
        self.inner.put(pass, list, what);
    }

    #[inline(always)]
    fn send(
        &mut self,
        alloc: Global,
        pass: &mut Pass<CoreLaw>,
        list: &mut ClientList,
        node: NodeNo,
        request: Request,
        stop: Option<StopAt>,
    ) -> NodeReply {
        let client = list.client();
        self.gate.before(client, node);
        let reply = self.inner.send(alloc, pass, list, node, request, stop);
        self.gate.after(client, node);
        reply
    }

    fn start_again(
        &mut self,
        alloc: Global,
        pass: &mut Pass<CoreLaw>,
        list: &mut ClientList,
        node: NodeNo,
    ) -> Result<(), RestartError> {
        self.inner.start_again(alloc, pass, list, node)
    }

    fn pause(&mut self, list: &ClientList, died: bool) {
        self.inner.pause(list, died);
    }

    ghost stays = { λ t. X.stays t.inner };

    ghost goes_on = { λ a b c own later. X.goes_on a.inner b.inner c.inner own later };
}
