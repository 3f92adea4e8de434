use mn_base::{Addr, Value};

/// What a step of a transaction did.
#[derive(Debug, Drop)]
pub enum Stepped {
    /// The next page of its path isn't there; it stands at `addr`. Nothing has changed.
    Need { addr: Addr },
    /// The next page of its path doesn't serve the version, doesn't cover its key or isn't one
    /// height below the page that names it. `addr` is where that page was read, or the one that it
    /// was split off or copied from. Nothing has changed.
    BadPath { addr: Addr },
    /// A Get: the value of its key, or none.
    Found { value: Option<Value> },
    /// A Put, or a Del of a key that was there.
    Changed,
    /// A Del of a key that wasn't there, or a Check that is met.
    Same,
    /// A Check that isn't met: what its key has.
    Unmet { found: Option<Value> },
}
