//! Counting the calls of a desk in memory, and choosing which of them fail.
//! Both counts stay at their type's end; how a call is chosen may be changed here.
ghost use Rattle.std.specs.Prelude.{◌≡◌, ◌<◌, ◌≤◌, ◌^◌, ◌||◌};

/// The calls of one kind.
#[derive(Drop)]
pub struct Calls {
    /// The numbers of the calls that fail, the first call being number 1.
    pub bad: Vec<u64>,
    /// How many calls there were.
    pub made: u64,
    /// How many calls failed.
    pub faults: u64,
    ghost counted: { faults < 2 ^ 64 },
}

impl Calls {
    ghost use Rattle.shape_desk.specs.Memory.{next_is_bad, after_call};
    ghost use Rattle.shape_desk.specs.Calls.{count_of};

    /// No call yet.
    pub fn new(bad: Vec<u64>) -> Calls
        ensures { count_of result ≡ record { bad = bad.items; made = 0; faults = 0 } }
    {
        Calls {
            bad,
            made: 0,
            faults: 0,
        }
    }

    /// Counts a call, and answers whether it fails: as one of those chosen, or for a cause of its own.
    pub fn count(&mut self, cause: bool) -> bool
        ensures failed { result ≡ (next_is_bad (count_of self.old) || cause) }
        ensures counted { count_of self.new ≡ after_call result (count_of self.old) }
        ensures later { self.old.faults ≤ self.new.faults }
    {
        self.made = self.made.saturating_add(1);
        let failed = self.bad.as_slice().contains(&self.made) || cause;
        if failed {
            self.faults = self.faults.saturating_add(1);
        }
        failed
    }
}
