//! Refusals for memory in a row.

ghost use Rattle.std.specs.Prelude.{◌≡◌};

/// So many refusals in a row are too many.
pub const MOST_REFUSALS: u32 = 16;

/// Counts refusals in a row.
#[derive(Clone, Copy, Debug)]
pub struct Refusals {
    /// How many there were since the last call that was not refused, no more than `MOST_REFUSALS`.
    pub count: u32,
}

impl Refusals {
    ghost use Rattle.desk.specs.Rows.{count_after, are_too_many};

    /// None yet.
    pub fn new() -> Refusals
        ensures { result.count ≡ 0 }
    {
        Refusals { count: 0 }
    }

    /// Notes whether a call was refused. True from the 16th refusal in a row on, until a call is
    /// not refused.
    pub fn note(&mut self, refused: bool) -> bool
        ensures count { self.new.count ≡ count_after refused self.old.count }
        ensures many { result ≡ are_too_many self.new.count }
    {
        let _count = self.count;
        self.count = if !refused {
            0
        } else if self.count < MOST_REFUSALS {
            self.count + 1
        } else {
            MOST_REFUSALS
        };
        self.count == MOST_REFUSALS
    }
}
