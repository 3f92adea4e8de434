ghost use Rattle.std.specs.Prelude.{◌≡◌, ◌<◌, ◌≤◌, slice_index, length};
ghost use Rattle.mn_gen.specs.Draws.{next_state, drawn, third_state, transfer_of};

use crate::accounts::ACCOUNTS;

/// A transfer: from which account to which, and how much.
#[derive(Clone, Copy)]
pub struct Transfer {
    pub from: usize,
    pub to: usize,
    pub amount: u16,
}

/// One draw.
fn draw(state: &mut u64) -> u64
    ensures state { state.new ≡ next_state state.old }
    ensures drawn { result ≡ drawn state.new }
{
    *state = state
        .wrapping_mul(6_364_136_223_846_793_005)
        .wrapping_add(1_442_695_040_888_963_407);
    *state >> 33
}

/// The transfer of the next three draws, of at most the balance.
pub fn draw_transfer(state: &mut u64, balances: &[u16; ACCOUNTS]) -> Transfer
    ensures state { state.new ≡ third_state state.old }
    ensures transfer { result ≡ transfer_of state.old balances.now }
    ensures apart { (result.from < 8) × (result.to < 8) }
    ensures covered { (result.amount ≤ slice_index balances.now result.from)
        × (result.amount ≤ 10) }
{
    let from = (draw(state) % 8) as usize;
    let to = (from + 1 + (draw(state) % 7) as usize) % 8;
    let wanted = 1 + (draw(state) % 10) as u16;
    Transfer {
        from,
        to,
        amount: wanted.min(balances[from]),
    }
}
