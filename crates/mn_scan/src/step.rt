use mn_base::Addr;

/// What a scan wants next.
#[derive(Clone, Copy, Debug, PartialEq, Eq)]
pub enum ScanStep {
    /// The page at `addr`. `leaf` tells whether a leaf may stand there: it is the root, or a child
    /// of a page of height 1.
    Need { addr: Addr, leaf: bool },
    /// Nothing more: it has all pairs, or as many as it may have.
    Ended,
}
