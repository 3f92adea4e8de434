ghost use Rattle.std.specs.Prelude.{◌≡◌, ◌++◌, ◌↔◌, ℕ, List, Option, IfSome, IsSomeAnd, IsTrue};
ghost use Rattle.std.specs.Option.{option_map};
ghost use Rattle.mn_page.specs.declared.page.Page.{Page};
ghost use Rattle.mn_page.specs.Grammar.{IsPage, IsFree, SpellsPage};
ghost use Rattle.mn_page.specs.Reading.{Begins, AreFences, fences_text, page_text};
ghost use Rattle.mn_page.specs.Reading.{HasCounted, HasSizes, framed};

use crate::body_scan::first_body;
use crate::fault::SLOT;
use crate::page_ref::{BodyRef, Frame};
use crate::scan::{first_counted, first_head, first_high, is_below};
use mn_padded::Padded;

/// The fences, and what follows them.
#[inline(always)]
fn first_fences(bytes: &[u8]) -> Option<((&[u8], Option<&[u8]>), &[u8])>
    ensures found { IfSome result
        (λ x. Begins AreFences fences_text bytes.now
        (x.0.0.now, option_map (λ h. h.now) x.0.1) x.1.now) }
    ensures only { (fences : List ℕ × Option (List ℕ)) (more : List ℕ) → AreFences fences
        → bytes.now ≡ fences_text fences ++ more
        → IsSomeAnd result (λ x. (x.0.0.now ≡ fences.0) × (option_map (λ h. h.now) x.0.1 ≡ fences.1)
        × (x.1.now ≡ more)) }
{
    let (low, behind) = first_counted(bytes, 0, 32)?;
    let (high, rest) = first_high(behind)?;
    if !is_below(low, high) {
        return None;
    }
    Some(((low, high), rest))
}

/// Reads the page that the bytes begin with. It gives what stands in front of the body, and what
/// follows the page.
#[inline(always)]
fn first_page<'a>(body: &mut BodyRef<'a>, bytes: &'a [u8]) -> Option<(Frame<'a>, &'a [u8])>
    requires { HasSizes body.old }
    ensures found { IfSome result
        (λ x. Begins IsPage page_text bytes.now (framed x.0 body.new) x.1.now) }
    ensures room { IfSome result (λ x. HasCounted body.new) }
    ensures only { (p : Page) (more : List ℕ) → IsPage p → bytes.now ≡ page_text p ++ more
        → IsSomeAnd result (λ x. (framed x.0 body.new ≡ p) × (x.1.now ≡ more)) }
{
    let (head, behind) = first_head(bytes)?;
    let ((low, high), behind) = first_fences(behind)?;
    let rest = first_body(body, head.height, low, high, behind)?;
    Some((Frame { head, low, high }, rest))
}

/// Reads the page that the bytes are, all of them. It gives what stands in front of the body.
#[inline(always)]
pub fn whole_page<'a>(body: &mut BodyRef<'a>, bytes: &Padded<'a>) -> Option<Frame<'a>>
    requires { HasSizes body.old }
    ensures found { IfSome result (λ x. SpellsPage bytes.now (framed x body.new)) }
    ensures room { IfSome result (λ x. HasCounted body.new) }
    ensures only { (p : Page) → SpellsPage bytes.now p
        → IsSomeAnd result (λ x. framed x body.new ≡ p) }
{
    let all = bytes.as_slice();
    if all.len() != SLOT {
        return None;
    }
    let (frame, rest) = first_page(body, all)?;
    if !bytes.are_zeros_from(SLOT - rest.len()) {
        return None;
    }
    Some(frame)
}

/// Whether the bytes are those of a free slot.
pub fn is_free(bytes: &Padded<'_>) -> bool
    ensures { IsTrue result ↔ IsFree bytes.now }
{
    bytes.as_slice().len() == SLOT && bytes.are_zeros_from(0)
}
