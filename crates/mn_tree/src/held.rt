ghost use Rattle.std.specs.Prelude.{◌≡◌, ◌<◌, ◌^◌, IfOk};
ghost use Rattle.mn_base.specs.Ids.{addr_same};
ghost use Rattle.mn_page.specs.Overlay.{is_new, new_addr, placed_addr};

use mn_base::{Addr, NoMemory, NodeNo};
use mn_page::SharedPage;

/// New pages have no slot yet: they go by their number, on this node, which there is not.
pub const UNPLACED: u8 = 8;

/// A page at its address.
#[derive(Debug)]
pub struct HeldPage {
    pub addr: Addr,
    pub page: SharedPage,
}

/// It is let go by a call, which is proved once, and not in place wherever one goes.
impl Drop for HeldPage {
    fn drop(self) {
        let HeldPage { addr: _addr, page } = self;
        drop(page);
    }
}

pub fn is_same(a: Addr, b: Addr) -> bool
    ensures { result ≡ addr_same a b }
{
    a.node.0 == b.node.0 && a.slot == b.slot
}

/// Whether a page there is a new one.
pub fn is_unplaced(addr: Addr) -> bool
    ensures { result ≡ is_new addr }
{
    addr.node.0 == UNPLACED
}

/// Where the n-th new page goes. So many that the numbers run out count as want of memory.
pub fn new_place(n: usize) -> Result<Addr, NoMemory>
    ensures { IfOk result (λ addr. (addr ≡ new_addr n) × (n < 2 ^ 16)) }
{
    match u16::try_from(n) {
        Ok(slot) => Ok(Addr {
            node: NodeNo(UNPLACED),
            slot,
        }),
        Err(_) => Err(NoMemory),
    }
}

/// The address that stands for this one: of a new page the one under its number, if there is one.
pub fn resolved(addrs: &[Addr], addr: Addr) -> Addr
    ensures { result ≡ placed_addr addrs.now addr }
{
    let number = usize::from(addr.slot);
    if is_unplaced(addr) && number < addrs.len() {
        addrs[number]
    } else {
        addr
    }
}
