//! The calls of an object in memory.

ghost use Rattle.std.specs.Prelude.{◌≡◌, ◌≤◌};
ghost use Rattle.outside.specs.Causes.{Rose, one_more};
ghost use Rattle.outside.specs.Memory.{is_to_fail};

/// How many calls came, how many of them failed, and the numbers, from 1, of those that are to.
#[derive(Drop)]
pub(crate) struct Calls {
    pub(crate) count: u64,
    pub(crate) faults: u64,
    pub(crate) fails: Vec<u64>,
}

impl Calls {
    pub(crate) fn new(fails: Vec<u64>) -> Calls
        ensures { result ≡ record { count = 0; faults = 0; fails = fails } }
    {
        Calls {
            count: 0,
            faults: 0,
            fails,
        }
    }

    /// Counts a call. Whether it is to fail.
    pub(crate) fn begin(&mut self) -> bool
        ensures fails { result ≡ is_to_fail self.old.fails.items (one_more self.old.count) }
        ensures counted { self.new ≡ record self.old { count = one_more self.old.count } }
    {
        self.count = self.count.saturating_add(1);
        self.fails.contains(&self.count)
    }

    /// Counts a fault.
    pub(crate) fn fault(&mut self)
        ensures counted { self.new ≡ record self.old { faults = one_more self.old.faults } }
        ensures rose { Rose self.old.faults self.new.faults }
        ensures never_falls { self.old.faults ≤ self.new.faults }
    {
        self.faults = self.faults.saturating_add(1);
    }
}
