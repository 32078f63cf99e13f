// `InternStats`, section 2 of document 01: the seven counts of the interner. Each thing that is counted has a method, which changes its
// own counts and no other. A call of the interner ends in one of four ways, and each is a method over these.
#![tactic(auto)]

ghost use Rattle.std.specs.Prelude.{◌≡◌, ◌+◌, ◌^◌, ◌<◌, ◌≤◌};
ghost use Rattle.stats.specs.Counts.{plus_call, plus_cache_hit, plus_bypass, plus_table_hit, plus_alloc, plus_resizes, plus_probes, Counted};

// The Rust's names. By default all are 0, as before the first call.
#[derive(Clone, Copy, Debug, Default, PartialEq, Eq)]
pub struct InternStats {
    pub calls: u64,
    pub cache_hits: u64,
    pub table_hits: u64,
    pub allocs: u64,
    pub long_bypass: u64,
    pub resizes: u64,
    pub probe_steps: u64,
}

impl InternStats {
    // ---- one thing that is counted. They are public, and so stay. One function of them all would take
    // the field as a closure that lends it.

    // A call counts itself.
    pub fn count_call(&mut self)
        requires { self.old.calls + 1 < 2 ^ 64 }
        ensures { self.new ≡ plus_call self.old }
    {
        self.calls += 1;
    }

    // The string was the last answer's.
    pub fn count_cache_hit(&mut self)
        requires { self.old.cache_hits + 1 < 2 ^ 64 }
        ensures { self.new ≡ plus_cache_hit self.old }
    {
        self.cache_hits += 1;
    }

    // The string has over 64 bytes: a bypass, and an alloc.
    pub fn count_bypass(&mut self)
        requires { (self.old.allocs + 1 < 2 ^ 64) × (self.old.long_bypass + 1 < 2 ^ 64) }
        ensures { self.new ≡ plus_bypass self.old }
    {
        self.allocs += 1;
        self.long_bypass += 1;
    }

    // The probe ended at an equal string.
    pub fn count_table_hit(&mut self)
        requires { self.old.table_hits + 1 < 2 ^ 64 }
        ensures { self.new ≡ plus_table_hit self.old }
    {
        self.table_hits += 1;
    }

    // The probe ended at an empty slot.
    pub fn count_alloc(&mut self)
        requires { self.old.allocs + 1 < 2 ^ 64 }
        ensures { self.new ≡ plus_alloc self.old }
    {
        self.allocs += 1;
    }

    // So often the table was doubled before the call probed it: once, or not at all.
    pub fn count_resizes(&mut self, n: u64)
        requires { self.old.resizes + n < 2 ^ 64 }
        ensures { self.new ≡ plus_resizes self.old n }
    {
        self.resizes += n;
    }

    // The call inspected so many slots.
    pub fn count_probes(&mut self, n: u64)
        requires { self.old.probe_steps + n < 2 ^ 64 }
        ensures { self.new ≡ plus_probes self.old n }
    {
        self.probe_steps += n;
    }

    // ---- a call, by the way it ends. Two and two differ in one call: one function for two would take that as a closure with both its clauses.
    // That no count is above that of the calls is asked for and is no field's fact: each of the methods above would have to ask for a call before
    // it, to keep it.

    pub fn cache_hit(mut self) -> InternStats
        requires { Counted self × (self.calls < 2 ^ 32) }
        ensures { result ≡ plus_cache_hit (plus_call self) }
    {
        self.count_call();
        self.count_cache_hit();
        self
    }

    pub fn bypass(mut self) -> InternStats
        requires { Counted self × (self.calls < 2 ^ 32) }
        ensures { result ≡ plus_bypass (plus_call self) }
    {
        self.count_call();
        self.count_bypass();
        self
    }

    // What a call for the table counts, however its probe ends. Both bounds keep the sums from wrapping; a struct of the two
    // would be made anew at each call.
    fn probed(mut self, resized: u64, steps: u64) -> InternStats
        requires { Counted self × (self.calls < 2 ^ 32) × (resized ≤ 1) × (steps ≤ 4096) }
        ensures { result ≡ plus_probes (plus_resizes (plus_call self) resized) steps }
    {
        self.count_call();
        self.count_resizes(resized);
        self.count_probes(steps);
        self
    }

    pub fn table_hit(self, resized: u64, steps: u64) -> InternStats
        requires { Counted self × (self.calls < 2 ^ 32) × (resized ≤ 1) × (steps ≤ 4096) }
        ensures { result ≡ plus_table_hit (plus_probes (plus_resizes (plus_call self) resized) steps) }
    {
        let mut counts = self.probed(resized, steps);
        counts.count_table_hit();
        counts
    }

    pub fn table_alloc(self, resized: u64, steps: u64) -> InternStats
        requires { Counted self × (self.calls < 2 ^ 32) × (resized ≤ 1) × (steps ≤ 4096) }
        ensures { result ≡ plus_alloc (plus_probes (plus_resizes (plus_call self) resized) steps) }
    {
        let mut counts = self.probed(resized, steps);
        counts.count_alloc();
        counts
    }
}
