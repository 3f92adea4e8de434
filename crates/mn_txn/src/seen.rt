ghost use Rattle.std.specs.Prelude.{◌≡◌};
ghost use Rattle.std.specs.Option.{option_map};
ghost use Rattle.mn_txn.specs.Seen.{seen_at};

use mn_base::Addr;
use mn_mini::SharedBytes;

/// A page as a try read it, or had kept it: where it stands, its bytes, and whether it is a leaf.
#[derive(Debug, Drop)]
pub struct SeenPage {
    pub addr: Addr,
    pub bytes: SharedBytes,
    pub leaf: bool,
}

/// The page that was seen at the address.
pub fn page_at(pages: &[SeenPage], addr: Addr) -> Option<&SeenPage>
    ensures { option_map (λ p. p.now) result ≡ seen_at pages.now addr }
{
    for page in pages {
        if page.addr == addr {
            return Some(page);
        }
    }
    None
}
