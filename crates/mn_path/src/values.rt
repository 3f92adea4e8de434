ghost use Rattle.std.specs.Prelude.{◌≡◌};
ghost use Rattle.std.specs.Option.{option_map};
ghost use Rattle.mn_base.specs.Store.{value_at};
ghost use Rattle.mn_page.specs.Grammar.{IsPage, height_of};
ghost use Rattle.mn_page.specs.Holds.{pairs_in};

use mn_page::PageRef;

/// The value of a key in a leaf.
pub fn value_in<'a>(leaf: &PageRef<'a>, key: &[u8]) -> Option<&'a [u8]>
    requires page { IsPage leaf.now }
    requires leaf { height_of leaf.now.body ≡ 0 }
    ensures { option_map (λ v. v.now) result ≡ value_at (pairs_in leaf.now.body) key.now }
{
    for i in 0..leaf.count() {
        if leaf.key(i) == key {
            return Some(leaf.value(i));
        }
    }
    None
}
