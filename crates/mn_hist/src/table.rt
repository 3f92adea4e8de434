//! What is kept by client and number.
ghost use Rattle.std.specs.Prelude.{◌≡◌, ◌&&◌, ℕ, IfOk, OnErr, OnOk, if◌then◌else◌, get_or, nat_eq};
ghost use Rattle.mn_base.specs.Ids.{client_same};
ghost use Rattle.mn_base.specs.declared.ids.ClientNo.{ClientNo as Who};
ghost use Rattle.mn_hist.specs.Table.{kept_at};

use mn_base::{ClientNo, NoMemory};
use std::alloc::Global;
use std::marker::Model;

/// How many numbers of clients there are.
const CLIENT_NUMBERS: usize = 256;

/// What is kept of each client by number. Contracts see it by client, and for a client by number.
#[derive(Drop)]
pub struct Table<T: Drop> {
    clients: Vec<Vec<T>>,
}

impl<T: Drop> Model for Table<T> {
    ghost use Rattle.std.specs.Prelude.{◌≡◌, List, length, map};

    ghost Value = { List (List T) };

    ghost view = { λ s. map (λ numbers. numbers.items) s.clients.items };

    ghost invariant = { λ s. length s.clients.items ≡ 256 };
}

/// Keeps one at its number. For numbers between, `none` is kept.
fn put<T: Copy>(numbers: &mut Vec<T>, number: usize, one: T, none: T) -> Result<(), NoMemory>
    ensures put { OnOk result ((n : ℕ) → get_or numbers.new.items n none
        ≡ (if nat_eq number n then one else get_or numbers.old.items n none)) }
    ensures failed { OnErr result ((n : ℕ)
        → get_or numbers.new.items n none ≡ get_or numbers.old.items n none) }
{
    while numbers.len() <= number {
        numbers.push(none)?;
    }
    numbers[number] = one;
    Ok(())
}

impl<T: Copy> Table<T> {
    /// Nothing is kept.
    pub fn new(alloc: Global) -> Result<Self, NoMemory>
        ensures { IfOk result (λ table. (c : Who) (n : ℕ) (none : T) → kept_at none table c n
            ≡ none) }
    {
        let mut clients = Vec::with_capacity(alloc, CLIENT_NUMBERS)?;
        for _ in 0..CLIENT_NUMBERS {
            clients.push(Vec::new(alloc))?;
        }
        Ok(Table { clients })
    }

    /// Keeps one of this client and number from now on. Where nothing is kept, that is as if `none`
    /// were. NoMemory: there was no memory for it, and as much is kept as before.
    pub fn keep(&mut self, client: ClientNo, number: u32, one: T, none: T) -> Result<(), NoMemory>
        ensures keeps { OnOk result ((c : Who) (n : ℕ) → kept_at none self.new c n
            ≡ (if client_same client c && nat_eq number n then one
            else kept_at none self.old c n)) }
        ensures failed { OnErr result ((c : Who) (n : ℕ)
            → kept_at none self.new c n ≡ kept_at none self.old c n) }
    {
        put(
            &mut self.clients[client.0 as usize],
            number as usize,
            one,
            none,
        )
    }

    /// What is kept of this client and number, else `none`.
    pub fn of(&self, client: ClientNo, number: u32, none: T) -> T
        ensures { result ≡ kept_at none self.now client number }
    {
        match self.clients[client.0 as usize].get(number as usize) {
            Some(one) => *one,
            None => none,
        }
    }
}
