//! The rule of the clock word, what a pass knows, and what each kind of step tells.

use crate::law::Law;
use atomic_table::{Join, Play, Split, TableRule};
use std::collections::LinkedList;
use std::marker::{Brand, PhantomData};

/// How many nodes and clients a board has.
#[derive(Clone, Copy, Debug)]
pub struct Size {
    pub nodes: u8,
    pub clients: u8,
}

/// What a pass knows: a place, and of each actor that it owns the list. It stands in proofs alone,
/// and no value of it is made.
pub struct View<E> {
    pub known: u64,
    pub nodes: LinkedList<Option<LinkedList<(u64, E)>>>,
    pub clients: LinkedList<Option<LinkedList<(u64, E)>>>,
}

/// The rule that holds between any two steps on the clock.
pub struct Clock<L> {
    law: PhantomData<L>,
}

impl<L: Law> TableRule<(), View<L::Entry>, Size> for Clock<L> {
    ghost use Rattle.mn_actors.specs.Rule.{Kept, first_view};

    ghost holds = { λ size. Kept L.legal size.nodes size.clients };

    ghost first = { λ size. first_view size.nodes size.clients };
}

// The entry that a step adds, for the proof alone. A call at `Brand` picks it.
pub(crate) trait Said<E> {
    ghost use Rattle.std.specs.Prelude.{Option};
    ghost use Rattle.mn_actors.specs.Lines.{Line};

    ghost line: { Option (Line E) };
}

impl<E> Said<E> for Brand {
    ghost use Rattle.std.specs.Prelude.{None};

    ghost line = { None };
}

/// The step that adds an entry.
pub(crate) struct Add<W> {
    said: PhantomData<W>,
}

impl<E, W: Said<E>> Play<(), View<E>> for Add<W> {
    ghost use Rattle.mn_actors.specs.Rule.{adds};

    ghost then = { adds W.line };
}

/// The step that looks at the clock.
pub(crate) struct Hear<L> {
    law: PhantomData<L>,
}

impl<L: Law> Play<(), View<L::Entry>> for Hear<L> {
    ghost use Rattle.mn_actors.specs.Look.{hears};

    ghost then = { hears L.legal };
}

// The place that a look leaves known, for the proof alone. A call at `Brand` picks it.
pub(crate) trait Placed {
    ghost use Rattle.std.specs.Prelude.{ℕ};

    ghost place: { ℕ };
}

impl Placed for Brand {
    ghost place = { 0 };
}

/// The step that looks at the lists.
pub(crate) struct Look<L, W> {
    law: PhantomData<L>,
    placed: PhantomData<W>,
}

impl<L: Law, W: Placed> Play<(), View<L::Entry>> for Look<L, W> {
    ghost use Rattle.mn_actors.specs.Look.{looks};

    ghost then = { looks L.legal W.place };
}

// The actor that a split gives away, for the proof alone. A call at `Brand` picks it.
pub(crate) trait Named {
    ghost use Rattle.mn_actors.specs.declared.actor.Actor.{Actor};

    ghost actor: { Actor };
}

impl Named for Brand {
    ghost use Rattle.mn_actors.specs.declared.actor.Actor.TheVariants.{Node};

    ghost actor = { Node (record { 0 = 0 }) };
}

/// The step that gives one actor to a pass of its own.
pub(crate) struct Part<W> {
    named: PhantomData<W>,
}

impl<E, W: Named> Split<View<E>> for Part<W> {
    ghost use Rattle.mn_actors.specs.Rule.{without, alone};

    ghost left = { λ v. without v W.actor };

    ghost right = { λ v. alone v W.actor };
}

/// The step that puts two passes together.
pub(crate) struct Both;

impl<E> Join<View<E>> for Both {
    ghost use Rattle.mn_actors.specs.Rule.{joined, spent};

    ghost both = { joined };

    ghost spent = { spent };
}
