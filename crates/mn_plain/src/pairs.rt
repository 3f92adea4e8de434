ghost use Rattle.std.specs.Prelude.{◌≡◌, option_map};
ghost use Rattle.mn_base.specs.Store.{value_at};

use mn_base::{Key, Pair, Value};

/// What the pairs have at a key, in whatever order they stand. It looks at one after another.
pub fn value_of<'a>(pairs: &'a [Pair], key: &Key) -> Option<&'a Value>
    ensures { option_map (λ v. v.now) result ≡ value_at pairs.now key.now }
{
    for pair in pairs {
        if pair.key.as_slice() == key.as_slice() {
            return Some(&pair.value);
        }
    }
    None
}
