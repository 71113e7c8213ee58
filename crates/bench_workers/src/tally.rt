//! What became of the jobs of workers.

ghost use Rattle.std.specs.Prelude.{◌≡◌};
ghost use Rattle.bench_workers.specs.Tallies.{with_return, with_one_refused, tally_sum, no_jobs};

use memo_core::claims::Finish;

/// How many jobs came to what. Each count stops at the greatest number.
#[derive(Clone, Copy, Debug, PartialEq, Eq)]
pub struct Tally {
    /// Returns whose outputs were stored.
    pub stored: u64,
    /// Returns whose outputs were there.
    pub same: u64,
    /// Returns that came too late.
    pub stale: u64,
    /// Returns of claims that were not out.
    pub unknown: u64,
    /// Claims and jobs that were refused.
    pub refused: u64,
}

impl Tally {
    /// No jobs.
    pub fn new() -> Tally
        ensures { result ≡ no_jobs }
    {
        Tally {
            stored: 0,
            same: 0,
            stale: 0,
            unknown: 0,
            refused: 0,
        }
    }

    /// Counts a return by what it came to.
    pub fn note(&mut self, finish: &Finish)
        ensures { self.new ≡ with_return finish.now self.old }
    {
        match finish {
            Finish::Stored(_) => self.stored = self.stored.saturating_add(1),
            Finish::Same => self.same = self.same.saturating_add(1),
            Finish::Stale(_) => self.stale = self.stale.saturating_add(1),
            Finish::Unknown => self.unknown = self.unknown.saturating_add(1),
        }
    }

    /// Counts a refusal.
    pub fn note_refusal(&mut self)
        ensures { self.new ≡ with_one_refused self.old }
    {
        self.refused = self.refused.saturating_add(1);
    }

    /// Adds the counts of another.
    pub fn add(&mut self, other: &Tally)
        ensures { self.new ≡ tally_sum self.old other.now }
    {
        self.stored = self.stored.saturating_add(other.stored);
        self.same = self.same.saturating_add(other.same);
        self.stale = self.stale.saturating_add(other.stale);
        self.unknown = self.unknown.saturating_add(other.unknown);
        self.refused = self.refused.saturating_add(other.refused);
    }
}
