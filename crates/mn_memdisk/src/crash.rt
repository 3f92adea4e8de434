ghost use Rattle.std.specs.Prelude.{◌≡◌, ◌≤◌, ◌<◌, ◌-◌, ◌++◌, ℕ, List, [], get_or, length, reverse};
ghost use Rattle.std.specs.Prelude.{OnOk, IfOk};
ghost use Rattle.mn_io.specs.DiskModel.{written_at};
ghost use Rattle.mn_memdisk.specs.Crash.{IsLeft, crashed, filled, left, shortened, written};
ghost use Rattle.mn_memdisk.specs.Events.{HavePieces, IsBack, IsKept, UnsyncedFrom};
ghost use Rattle.mn_memdisk.specs.Events.{events_of, first_of, events_with};
ghost use Rattle.mn_memdisk.specs.Held.{event_with};
ghost use Rattle.mn_memdisk.specs.History.{Event};
ghost use Rattle.mn_memdisk.specs.declared.changes.Change.{Change};

use crate::changes::Change;
use crate::held::Held;
use crate::outcome::{Outcome, pick};
use crate::overwrite::overwrite;
use std::alloc::{AllocError, Global};

/// Undoes the changes since the last sync, the newest first, and puts what each was to write behind
/// the pieces. It says how many changes there are up to the sync, and with it.
fn undo_unsynced(
    held: &mut Held,
    changes: &[Change],
    pieces: &mut Vec<u8>,
) -> Result<usize, AllocError>
    requires kept { IsKept (reverse changes.now) held.old.held }
    requires none { pieces.old.items ≡ [] }
    ensures within { IfOk result (λ n. n ≤ length changes.now) }
    ensures back { IfOk result
        (λ n. IsBack n changes.now pieces.new.items held.old.held held.new.held) }
    ensures unsynced { IfOk result (λ n. UnsyncedFrom n changes.now) }
    ensures synced { IfOk result
        (λ n. 0 < n → (d : Change) → get_or changes.now (n - 1) d ≡ Change.Synced) }
{
    let mut stable = changes.len();
    while stable > 0 && changes[stable - 1] != Change::Synced {
        let newest = changes[stable - 1];
        pieces.extend_from_slice(held.piece(newest))?;
        held.undo(newest);
        stable -= 1;
    }
    Ok(stable)
}

/// Writes a piece over an image and past its end.
fn put(image: &mut Vec<u8>, at: usize, piece: &[u8]) -> Result<(), AllocError>
    requires { at ≤ length image.old.items }
    ensures { OnOk result (image.new.items ≡ written_at image.old.items at piece.now) }
{
    image.reserve(piece.len())?;
    overwrite(image, at, piece);
    Ok(())
}

/// Puts zeros at the end of an image, up to a length.
fn fill(alloc: Global, image: &mut Vec<u8>, length: usize) -> Result<(), AllocError>
    ensures { OnOk result (image.new.items ≡ filled length image.old.items) }
{
    if image.len() < length {
        let gap = vec![in alloc; 0u8; length - image.len()]?;
        image.extend_from_slice(&gap)?;
    }
    Ok(())
}

/// Leaves in an image what the outcome says of a write.
fn tear(
    alloc: Global,
    image: &mut Vec<u8>,
    at: u64,
    piece: &[u8],
    outcome: Outcome,
) -> Result<(), AllocError>
    ensures { OnOk result (image.new.items ≡ written outcome at piece.now image.old.items) }
{
    if at > image.len() as u64 {
        return Ok(());
    }
    let at = at as usize;
    let half = piece.len() / 2;
    match outcome {
        Outcome::Nothing => Ok(()),
        Outcome::Whole => put(image, at, piece),
        Outcome::Front => put(image, at, &piece[..half]),
        Outcome::Back => {
            fill(alloc, image, at + half)?;
            put(image, at + half, &piece[half..])
        }
    }
}

/// Leaves in an image what the outcome says of a cut.
fn cut_short(image: &mut Vec<u8>, length: u64, outcome: Outcome)
    ensures { image.new.items ≡ shortened outcome length image.old.items }
{
    if length >= image.len() as u64 {
        return;
    }
    let length = length as usize;
    match outcome {
        Outcome::Nothing => {}
        Outcome::Whole => image.truncate(length),
        Outcome::Front | Outcome::Back => image.truncate(length + (image.len() - length) / 2),
    }
}

/// Leaves in an image what the outcome says of a change, which was to write a piece.
fn show(
    alloc: Global,
    image: &mut Vec<u8>,
    change: Change,
    piece: &[u8],
    outcome: Outcome,
) -> Result<(), AllocError>
    ensures { OnOk result (image.new.items
        ≡ left outcome (event_with change piece.now) image.old.items) }
{
    match change {
        Change::Wrote { at, .. } | Change::LostWrite { at, .. } => {
            tear(alloc, image, at, piece, outcome)
        }
        Change::Shortened { length, .. } | Change::LostCut { length } => {
            cut_short(image, length, outcome);
            Ok(())
        }
        Change::Synced => Ok(()),
    }
}

/// Leaves in an image what the choice says of each of these changes, the oldest first, whose pieces
/// stand with that of the oldest last.
fn show_all(
    alloc: Global,
    image: &mut Vec<u8>,
    changes: &[Change],
    pieces: Vec<u8>,
    choice: u64,
) -> Result<(), AllocError>
    requires there { HavePieces changes.now pieces.items }
    requires unsynced { UnsyncedFrom 0 changes.now }
    ensures { OnOk result ((first : List ℕ) (older : List Event)
        → IsLeft choice first 0 older image.old.items
        → image.new.items ≡ crashed choice first (events_with changes.now pieces.items ++ older)) }
{
    let mut pieces = pieces;
    for number in 0..changes.len() {
        let change = changes[number];
        let from = pieces.len() - change.size();
        show(alloc, image, change, &pieces[from..], pick(choice, number))?;
        pieces.truncate(from);
    }
    Ok(())
}

/// The image that a choice picks of those that a crash may leave after these changes.
pub fn image_after(
    alloc: Global,
    held: Held,
    changes: &[Change],
    choice: u64,
) -> Result<Vec<u8>, AllocError>
    requires { IsKept (reverse changes.now) held.held }
    ensures { IfOk result (λ image. image.items ≡ crashed choice
        (first_of (reverse changes.now) held.held) (events_of (reverse changes.now) held.held)) }
{
    let mut held = held;
    let mut pieces = Vec::new(alloc);
    let stable = undo_unsynced(&mut held, changes, &mut pieces)?;
    let mut image = held.into_content();
    show_all(alloc, &mut image, &changes[stable..], pieces, choice)?;
    Ok(image)
}
