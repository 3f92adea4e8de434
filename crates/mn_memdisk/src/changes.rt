ghost use Rattle.std.specs.Prelude.{◌≡◌};
ghost use Rattle.mn_memdisk.specs.Held.{size_of};

/// A change of a disk. Of a call that failed only the lost form is there, which a crash may show.
/// The bytes of a write stand in the content, or where it failed among those that are saved.
#[derive(Clone, Copy, Debug, PartialEq, Eq)]
pub enum Change {
    /// `grown` of the bytes were written behind all that there were. `before` is the length before.
    Wrote {
        at: u64,
        count: usize,
        grown: usize,
        before: usize,
    },
    LostWrite {
        at: u64,
        count: usize,
    },
    /// `before` is the length before.
    Shortened {
        length: u64,
        before: usize,
    },
    LostCut {
        length: u64,
    },
    Synced,
}

impl Change {
    /// How many bytes it was to write.
    pub fn size(&self) -> usize
        ensures { result ≡ size_of self.now }
    {
        match *self {
            Change::Wrote { count, .. } | Change::LostWrite { count, .. } => count,
            _ => 0,
        }
    }
}
