ghost use Rattle.std.specs.Prelude.{◌≡◌, ◌≤◌, ◌<◌, ◌+◌, ◌^◌, ◌≢◌, [], None, Some, length, IfOk};
ghost use Rattle.mn_page.specs.declared.page.Page.{Page};
ghost use Rattle.mn_page.specs.Overlay.{held_at};
ghost use Rattle.mn_base.specs.Store.{step_key};
ghost use Rattle.mn_tree.specs.Walk.{held, held_of, helds};
ghost use Rattle.mn_tree.specs.Found.{those_at};
ghost use Rattle.mn_tree.specs.Effects.{IsEffect};
ghost use Rattle.mn_tree.specs.Writes.{origins_in, writes_up};
ghost use Rattle.mn_tree.specs.declared.stepped.Stepped.TheVariants.{Changed};
ghost use Rattle.mn_page.specs.declared.page.Body.TheVariants.{Leaf};

use crate::Stepped;
use crate::body::{leaf_of, pairs_of};
use crate::draft::Draft;
use crate::held::HeldPage;
use crate::pairs::{copy_of, is_found, value_of, with_pair, without_pair};
use crate::way::Way;
use crate::write::Write;
use crate::writer::raise;
use mn_base::{Addr, Key, NoMemory, Pair, Step, VersionNo};
use std::alloc::Global;

/// What a step does on the leaf of its key: its answer, and the pages that it writes.
#[derive(Drop)]
pub struct Effect {
    pub answer: Stepped,
    pub writes: Vec<Write>,
}

/// The key that a step names.
pub fn key_of(step: &Step) -> &Key
    ensures { result.now ≡ step_key step.now }
{
    match step {
        Step::Get { key } | Step::Put { key, .. } | Step::Del { key } | Step::Check { key, .. } => {
            key
        }
    }
}

/// A step that writes nothing.
fn unwritten(alloc: Global, answer: Stepped) -> Effect
    ensures answer { result.answer ≡ answer }
    ensures writes { result.writes.items ≡ [] }
{
    Effect {
        answer,
        writes: Vec::new(alloc),
    }
}

/// A step after which the leaf has these pairs.
fn rewritten(
    alloc: Global,
    version: VersionNo,
    draft: &Draft,
    leaf: &HeldPage,
    above: &[Addr],
    pairs: Vec<Pair>,
) -> Result<Effect, NoMemory>
    requires version { version.0 < 64 }
    requires bound { length draft.now.origins.items ≤ 2 ^ 16 }
    ensures answer { IfOk result (λ effect. effect.answer ≡ Changed) }
    ensures writes { IfOk result (λ effect. effect.writes.items
        ≡ writes_up version (length draft.now.origins.items) draft.now.origins.items
        (held_of leaf.now) (those_at (helds draft.now.pages.items) (held_of leaf.now) above.now)
        (Leaf pairs.items)) }
    ensures bound { IfOk result (λ effect.
        length draft.now.origins.items + length (origins_in effect.writes.items) ≤ 2 ^ 16) }
{
    let writes = raise(alloc, version, draft, leaf, above, leaf_of(pairs))?;
    Ok(Effect {
        answer: Stepped::Changed,
        writes,
    })
}

/// What a step does on the leaf of its key, where the pages at these addresses lead from above it
/// up to the root.
fn effect_on(
    alloc: Global,
    version: VersionNo,
    draft: &Draft,
    leaf: &HeldPage,
    above: &[Addr],
    step: &Step,
) -> Result<Effect, NoMemory>
    requires version { version.0 < 64 }
    requires bound { length draft.now.origins.items ≤ 2 ^ 16 }
    ensures { IfOk result (IsEffect version draft.now.origins.items (held_of leaf.now)
        (those_at (helds draft.now.pages.items) (held_of leaf.now) above.now) step.now) }
{
    let pairs = pairs_of(&leaf.page.get().body);
    match step {
        Step::Get { key } => {
            let value = copy_of(alloc, value_of(pairs, key))?;
            Ok(unwritten(alloc, Stepped::Found { value }))
        }
        Step::Put { key, value } => {
            let pairs = with_pair(alloc, pairs, key, value)?;
            rewritten(alloc, version, draft, leaf, above, pairs)
        }
        Step::Del { key } => {
            if value_of(pairs, key).is_none() {
                return Ok(unwritten(alloc, Stepped::Same));
            }
            let pairs = without_pair(alloc, pairs, key)?;
            rewritten(alloc, version, draft, leaf, above, pairs)
        }
        Step::Check { key, want } => {
            let found = value_of(pairs, key);
            if is_found(found, want) {
                return Ok(unwritten(alloc, Stepped::Same));
            }
            let found = copy_of(alloc, found)?;
            Ok(unwritten(alloc, Stepped::Unmet { found }))
        }
    }
}

/// What a step does on the leaf at which its way goes on.
pub fn effect_at(
    alloc: Global,
    version: VersionNo,
    draft: &Draft,
    way: &Way,
    step: &Step,
) -> Result<Effect, NoMemory>
    requires version { version.0 < 64 }
    requires bound { length draft.now.origins.items ≤ 2 ^ 16 }
    requires leaf { held_at (helds draft.now.pages.items) way.now.next ≢ None }
    ensures { IfOk result (λ effect. (p : Page)
        → held_at (helds draft.now.pages.items) way.now.next ≡ Some p
        → IsEffect version draft.now.origins.items (held way.now.next p)
        (those_at (helds draft.now.pages.items) (held way.now.next p) way.now.passed.items)
        step.now effect) }
{
    let Some(leaf) = draft.pages.get(way.next) else {
        unreachable!();
    };
    effect_on(alloc, version, draft, leaf, way.passed.as_slice(), step)
}
