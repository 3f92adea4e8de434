ghost use Rattle.std.specs.Prelude.{◌≡◌, Some, refl, nat_eq, IfOk};
ghost use Rattle.std.specs.Ordering.{nat_cmp};
ghost use Rattle.std.specs.Cmp.{partial_equiv_from_equiv};
ghost use Rattle.std.specs.Cmp.Lexicographic.{pointwise, slice_cmp, nat_list_eq_equiv};
ghost use Rattle.std.specs.Cmp.Lexicographic.{nat_list_cmp_total, texts_ties, texts_po};

use mn_base::{Key, NoMemory, TryCopy, key_order};
use std::alloc::Global;
use std::cmp::Ordering;
use std::marker::Model;

/// A key in the order of keys: by its bytes. Contracts see them as a list.
#[derive(Debug, Drop)]
pub struct OrderedKey {
    key: Key,
}

impl Model for OrderedKey {
    ghost use Rattle.std.specs.Prelude.{ℕ, List};

    ghost Value = { List ℕ };

    ghost view = { λ k. k.key };
}

impl OrderedKey {
    /// It takes no memory.
    pub fn from_key(key: Key) -> Self
        ensures { result ≡ key }
    {
        OrderedKey { key }
    }

    /// A copy of a key. NoMemory: there was no memory for it.
    pub fn copy_of(alloc: Global, key: &Key) -> Result<Self, NoMemory>
        ensures { IfOk result (λ copy. copy ≡ key.now) }
    {
        Ok(OrderedKey {
            key: key.try_copy(alloc)?,
        })
    }

    pub fn as_key(&self) -> &Key
        ensures { result.now ≡ self.now }
    {
        &self.key
    }
}

impl PartialEq for OrderedKey {
    ghost eq = { pointwise nat_eq };

    ghost laws = { partial_equiv_from_equiv nat_list_eq_equiv };

    fn eq(&self, other: &OrderedKey) -> bool {
        self.key.as_slice() == other.key.as_slice()
    }
}

impl Eq for OrderedKey {
    ghost laws = { nat_list_eq_equiv };
}

impl PartialOrd for OrderedKey {
    ghost partial_cmp = { λ x y. Some (slice_cmp nat_cmp x y) };

    ghost laws = { texts_po };

    fn partial_cmp(&self, other: &OrderedKey) -> Option<Ordering> {
        Some(self.cmp(other))
    }
}

impl Ord for OrderedKey {
    ghost cmp = { slice_cmp nat_cmp };

    ghost total = { nat_list_cmp_total };

    ghost matches_partial_cmp = { λ x y. refl };

    ghost matches_eq = { texts_ties };

    fn cmp(&self, other: &OrderedKey) -> Ordering {
        key_order(self.key.as_slice(), other.key.as_slice())
    }
}
