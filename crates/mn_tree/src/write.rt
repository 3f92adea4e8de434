use mn_base::Addr;
use mn_page::SharedPage;

/// A page as a step leaves it: an old one or a new one of before where it stands, or one more new
/// one, which was made of the page that was read at `origin`.
#[derive(Drop)]
pub struct Write {
    pub addr: Addr,
    pub page: SharedPage,
    pub origin: Option<Addr>,
}
