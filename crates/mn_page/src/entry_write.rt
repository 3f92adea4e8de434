ghost use Rattle.std.specs.Prelude.{◌≡◌, ◌≤◌, ◌+◌, ◌++◌, ◌∷◌, [], length};
ghost use Rattle.mn_page.specs.Grammar.{entry_bytes, state_byte, parent_byte};
ghost use Rattle.mn_page.specs.Space.{entry_size};

use crate::CatEntry;
use crate::write::{put_addr, put_byte, put_counted, put_u64, put_zeros};
use mn_base::VersionNo;

fn state_byte(frozen: bool) -> u8
    ensures { result ≡ state_byte frozen }
{
    if frozen { 2 } else { 1 }
}

fn parent_byte(parent: Option<VersionNo>) -> u8
    ensures { result ≡ parent_byte parent }
{
    match parent {
        Some(version) => version.0,
        None => 255,
    }
}

impl CatEntry {
    /// Writes its spelling over a place of the catalog, all of its 64 bytes.
    pub fn write(&self, into: &mut [u8])
        requires { length into.old ≡ entry_size }
        ensures { into.new ≡ entry_bytes self.now }
    {
        let at = put_u64(into, 0, self.seq);
        let at = put_byte(into, at, state_byte(self.frozen));
        let at = put_byte(into, at, parent_byte(self.parent));
        let at = put_addr(into, at, self.root);
        let at = put_counted(into, at, self.name.as_slice());
        put_zeros(into, at);
    }
}
