ghost use Rattle.std.specs.Prelude.{◌≡◌, ◌<◌, ◌≤◌, ◌∷◌, ◌++◌, [], length, IsOk, IfNone, IfSome};
ghost use Rattle.std.specs.Prelude.{OnErr, OnOk, OnSome};

use crate::NoMemory;
use std::marker::Model;

/// At most `N` values, which lie in the list itself, so that it is copied as it lies. Contracts see
/// a list.
#[derive(Debug, Drop)]
pub struct ShortList<T, const N: usize> {
    values: [T; N],
    count: usize,
}

impl<T, const N: usize> Model for ShortList<T, N> {
    ghost use Rattle.std.specs.Prelude.{◌≤◌, List, take};

    ghost Value = { List T };

    ghost view = { λ l. take l.count l.values };

    ghost invariant = { λ l. l.count ≤ N };
}

impl<T: Copy + Default, const N: usize> ShortList<T, N> {
    #[inline(always)]
    pub fn new() -> Self
        ensures { result ≡ [] }
    {
        ShortList {
            values: [T::default(); N],
            count: 0,
        }
    }

    /// A full list of values by default.
    pub fn blank() -> Self
        ensures { length result ≡ N }
    {
        ShortList {
            values: [T::default(); N],
            count: N,
        }
    }

    /// These values; none where there are more than `N`.
    #[inline(always)]
    pub fn of(values: &[T]) -> Option<Self>
        ensures some { IfSome result (λ list. list ≡ values.now) }
        ensures within { OnSome result (length values.now ≤ N) }
        ensures none { IfNone result (N < length values.now) }
    {
        if values.len() > N {
            return None;
        }
        let mut own = [T::default(); N];
        own[..values.len()].copy_from_slice(values);
        Some(ShortList {
            values: own,
            count: values.len(),
        })
    }

    /// Adds a value behind the others. NoMemory: there are `N` already.
    #[inline(always)]
    pub fn push(&mut self, value: T) -> Result<(), NoMemory>
        ensures ok { OnOk result (self.new ≡ self.old ++ value ∷ []) }
        ensures room { length self.old < N → IsOk result }
        ensures err { OnErr result (self.new ≡ self.old) }
    {
        if self.count >= N {
            return Err(NoMemory);
        }
        self.values[self.count] = value;
        self.count += 1;
        Ok(())
    }

    /// An equal list.
    #[inline(always)]
    pub fn copy(&self) -> Self
        ensures { result ≡ self.now }
    {
        ShortList {
            values: self.values,
            count: self.count,
        }
    }

    #[inline(always)]
    pub fn as_slice(&self) -> &[T]
        ensures within { length self.now ≤ N }
        ensures values { result.now ≡ self.now }
    {
        &self.values[..self.count]
    }
}
