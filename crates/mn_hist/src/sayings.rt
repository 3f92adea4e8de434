//! What is said of each operation, by client and number.
ghost use Rattle.std.specs.Prelude.{◌≡◌, ◌&&◌, ℕ, List, IfOk, OnOk, if◌then◌else◌, nat_eq};
ghost use Rattle.mn_base.specs.Ids.{client_same};
ghost use Rattle.mn_base.specs.declared.ids.ClientNo.{ClientNo as Who};
ghost use Rattle.mn_report.specs.declared.lines.LineAnswer.TheVariants.{Answered, Never};
ghost use Rattle.mn_hist.specs.Saying.{IsKeptRight, said_kept, said_of};

use crate::table::Table;
use mn_base::{Answer, ClientNo, NoMemory};
use std::alloc::Global;
use std::marker::Model;

/// What is said of an operation.
#[derive(Clone, Copy)]
pub enum Kept<'a> {
    /// It was never begun.
    Never,
    /// It was begun and has no answer.
    Died,
    /// Its answer is that it is in doubt.
    InDoubt(&'a Answer),
    /// It has another answer.
    Answered(&'a Answer),
}

/// That an operation has this answer.
pub fn kept_answer<'a>(answer: &'a Answer) -> Kept<'a>
    ensures said { said_of result ≡ Answered answer.now }
    ensures right { IsKeptRight result }
{
    match answer {
        Answer::InDoubt { .. } => Kept::InDoubt(answer),
        _ => Kept::Answered(answer),
    }
}

/// What is said of each operation. Whether its client didn't learn whether it took effect is told
/// without a look at the answer. Contracts see it by client, and for a client by number.
#[derive(Drop)]
pub struct AllSaid<'a> {
    table: Table<Kept<'a>>,
}

impl<'a> Model for AllSaid<'a> {
    ghost use Rattle.std.specs.Prelude.{List};
    ghost use Rattle.mn_hist.specs.declared.sayings.Kept.{Kept};
    ghost use Rattle.mn_hist.specs.Saying.{AreKeptRight};

    ghost Value = { List (List Kept) };

    ghost view = { λ s. s.table };

    ghost invariant = { λ s. AreKeptRight s.table };
}

impl<'a> AllSaid<'a> {
    /// Of no operation is anything said.
    pub fn new(alloc: Global) -> Result<Self, NoMemory>
        ensures { IfOk result (λ all. (c : Who) (n : ℕ) → said_kept all c n ≡ Never) }
    {
        Ok(AllSaid {
            table: Table::new(alloc)?,
        })
    }

    /// Notes what is said of an operation from now on. NoMemory: there was no memory for it.
    pub fn note(&mut self, client: ClientNo, number: u32, one: Kept<'a>) -> Result<(), NoMemory>
        requires { IsKeptRight one }
        ensures { OnOk result ((c : Who) (n : ℕ)
            → said_kept self.new c n ≡ (if client_same client c && nat_eq number n
            then said_of one.entry else said_kept self.old c n)) }
    {
        self.table.keep(client, number, one, Kept::Never)
    }

    /// What is said of an operation.
    pub fn of(&self, client: ClientNo, number: u32) -> Kept<'a>
        ensures said { said_of result ≡ said_kept self.now client number }
        ensures right { IsKeptRight result }
    {
        self.table.of(client, number, Kept::Never)
    }
}
