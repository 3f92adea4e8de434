ghost use Rattle.std.specs.Prelude.{◌≡◌, ◌<◌, ◌^◌, [], ◌∷◌, length, replicate, slice_set, IfOk};

use mn_base::NoMemory;
use mn_mini::Reads;
use std::alloc::Global;
use std::marker::Model;
use std::slice;

/// What each participant read, by participant. Contracts see it as a list. What one or two read
/// lies in place.
#[derive(Debug)]
pub struct AllReads {
    kept: Kept,
}

#[derive(Debug, Drop)]
enum Kept {
    One(Reads),
    Two([Reads; 2]),
    Several(Vec<Reads>),
}

/// It is let go by a call, which is proved once, and not in place wherever one goes.
impl Drop for AllReads {
    #[inline(always)]
    fn drop(self) {
        let AllReads { kept } = self;
        drop(kept);
    }
}

impl Model for AllReads {
    ghost use Rattle.std.specs.Prelude.{ℕ, List};
    ghost use Rattle.mn_coord.specs.AllReads.{reads_in};

    ghost Value = { List (List (List ℕ)) };

    ghost view = { λ r. reads_in r.kept };
}

/// Nothing for each of so many participants.
fn no_reads(alloc: Global, participants: usize) -> Result<Vec<Reads>, NoMemory>
    ensures { IfOk result (λ reads. reads.items ≡ replicate participants []) }
{
    let mut reads = Vec::with_capacity(alloc, participants)?;
    for _at in 0..participants {
        reads.push(Reads::none())?;
    }
    Ok(reads)
}

impl AllReads {
    /// Nothing for a lone participant. It takes no memory.
    pub(crate) fn of_one() -> Self
        ensures { result ≡ [] ∷ [] }
    {
        AllReads {
            kept: Kept::One(Reads::none()),
        }
    }

    /// Nothing for each of so many participants. NoMemory: there was no memory for it.
    #[inline(never)]
    pub(crate) fn new(alloc: Global, participants: usize) -> Result<Self, NoMemory>
        ensures { IfOk result (λ reads. reads ≡ replicate participants []) }
    {
        if participants == 2 {
            return Ok(AllReads {
                kept: Kept::Two([Reads::none(), Reads::none()]),
            });
        }
        let reads = no_reads(alloc, participants)?;
        Ok(AllReads {
            kept: Kept::Several(reads),
        })
    }

    /// Puts what the participant of this number read.
    pub(crate) fn put(&mut self, at: usize, reads: Reads)
        requires { at < length self.old }
        ensures put { self.new ≡ slice_set self.old at reads }
        ensures fits { length self.old < 2 ^ 64 }
    {
        match &mut self.kept {
            Kept::One(one) => *one = reads,
            Kept::Two(two) if at == 0 => two[0] = reads,
            Kept::Two(two) => two[1] = reads,
            Kept::Several(several) => several[at] = reads,
        }
    }

    pub fn as_slice(&self) -> &[Reads]
        ensures { result.now ≡ self.now }
    {
        match &self.kept {
            Kept::One(one) => slice::from_ref(one),
            Kept::Two(two) => two,
            Kept::Several(several) => several,
        }
    }
}
