ghost use Rattle.std.specs.Prelude.{◌≡◌, ℕ, List, IfOk, IfErr, OnOk};
ghost use Rattle.mn_base.specs.Refusal.{RefusesName};
ghost use Rattle.mn_base.specs.Name.{IsName, name_fault, is_name_place};

use crate::short_list::ShortList;
use crate::{BaseError, NoMemory, TryCopy};
use std::alloc::Global;
use std::marker::Model;

/// The most bytes of a name.
pub const MAX_NAME: usize = 16;

/// The name of a version or a client: 1 to 16 bytes of `a` to `z` and `0` to `9`. Contracts see it
/// as a list.
#[derive(Debug, Drop)]
pub struct Name {
    bytes: ShortList<u8, MAX_NAME>,
}

impl Model for Name {
    ghost Value = { List ℕ };

    ghost view = { λ n. n.bytes };

    ghost invariant = { λ n. IsName n.bytes };
}

fn is_allowed(at: usize, byte: u8) -> bool
    ensures { result ≡ is_name_place at byte }
{
    at < MAX_NAME && matches!(byte, b'a'..=b'z' | b'0'..=b'9')
}

/// The first byte at which the bytes stop being a name.
fn fault_of(bytes: &[u8]) -> Option<usize>
    ensures { result ≡ name_fault bytes.now }
{
    if bytes.is_empty() {
        return Some(0);
    }
    for (at, byte) in bytes.iter().enumerate() {
        if !is_allowed(at, *byte) {
            return Some(at);
        }
    }
    None
}

impl Name {
    /// The name of these bytes. BadName: `at` is the first byte at fault, 16 for the first byte too
    /// many, 0 for no byte. NoMemory: there was no memory for it.
    #[tactic(auto, using(crate::proofs::Names::no_fault_is_name))]
    #[inline(always)]
    pub fn new(alloc: Global, bytes: &[u8]) -> Result<Self, BaseError>
        ensures ok { IfOk result (λ name. name ≡ bytes.now) }
        ensures right { OnOk result (IsName bytes.now) }
        ensures refused { IfErr result (RefusesName bytes.now) }
    {
        if let Some(at) = fault_of(bytes) {
            return Err(BaseError::BadName { at });
        }
        match ShortList::of(bytes) {
            Some(bytes) => Ok(Name { bytes }),
            None => Err(BaseError::NoMemory),
        }
    }

    pub fn as_slice(&self) -> &[u8]
        ensures bytes { result.now ≡ self.now }
        ensures right { IsName self.now }
    {
        self.bytes.as_slice()
    }
}

impl TryCopy for Name {
    #[inline(always)]
    fn try_copy(&self, _alloc: Global) -> Result<Self, NoMemory> {
        Ok(Name {
            bytes: self.bytes.copy(),
        })
    }
}
