use mn_base::{Range, Tid};

/// A range that is held for an id: shared with others, or alone.
#[derive(Clone, Copy, Debug, PartialEq, Eq)]
pub struct Hold {
    pub tid: Tid,
    pub range: Range,
    pub alone: bool,
}

/// The first range asked for that conflicts with what is held, and the least id that holds it.
#[derive(Clone, Copy, Debug, PartialEq, Eq)]
pub struct Held {
    pub range: Range,
    pub holder: Tid,
}
