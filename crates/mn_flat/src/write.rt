ghost use Rattle.std.specs.Prelude.{◌≡◌};
ghost use Rattle.mn_mini.specs.Flat.{space_after_part};

use mn_mini::PartItem;
use mn_space::NodeSpace;

/// Puts the write items of a part in place.
pub fn write_items(space: &mut NodeSpace, items: &[PartItem])
    ensures { space.new ≡ space_after_part space.old items.now }
{
    for item in items {
        if let PartItem::Write { start, bytes } = item {
            space.write(*start, bytes.as_slice());
        }
    }
}
