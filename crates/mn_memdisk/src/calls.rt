ghost use Rattle.std.specs.Prelude.{◌≡◌, ◌≤◌, IsTrue};
ghost use Rattle.mn_io.specs.Faults.{next_count, Rose};
ghost use Rattle.mn_io.specs.Memory.{is_one_of, counted};

use mn_io::Calls;

/// How many calls there were, which calls fail, and how many did.
#[derive(Drop)]
pub struct CallCount {
    pub calls: u64,
    pub fails: Calls,
    pub faults: u64,
}

impl CallCount {
    /// Counts a call, and says whether it is one that fails, which is then counted too.
    pub fn is_due(&mut self) -> bool
        ensures due { result ≡ is_one_of self.old.calls self.old.fails }
        ensures calls { self.new.calls ≡ next_count self.old.calls }
        ensures faults { self.new.faults
            ≡ counted (is_one_of self.old.calls self.old.fails) self.old.faults }
        ensures later { self.old.faults ≤ self.new.faults }
        ensures rose { IsTrue result → Rose self.old.faults self.new.faults }
        ensures fails { self.new.fails ≡ self.old.fails }
    {
        let is_due = self.fails.as_slice().contains(&self.calls);
        self.calls = self.calls.saturating_add(1);
        if is_due {
            self.faults = self.faults.saturating_add(1);
        }
        is_due
    }
}
