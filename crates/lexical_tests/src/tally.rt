//! Counts what was compared.

ghost use Rattle.std.specs.Io.Iter.{u64_saturate};
ghost use Rattle.std.specs.Prelude.{◌≡◌, ◌+◌, if◌then◌else◌};

/// How many texts were compared, and how often. The numbers stop at `u64::MAX`.
#[derive(Clone, Copy)]
pub struct Tally {
    /// The number of texts.
    pub texts: u64,
    /// The number of comparisons, at each character of each text and of its beginnings.
    pub comparisons: u64,
    /// The number of comparisons in which the two lexers differ.
    pub differ: u64,
}

impl Tally {
    /// Counts a comparison, in which the two lexers give the same result or not.
    pub fn count(&mut self, same: bool)
        ensures texts { self.new.texts ≡ self.old.texts }
        ensures comparisons { self.new.comparisons ≡ u64_saturate (self.old.comparisons + 1) }
        ensures differ { self.new.differ
            ≡ (if same then self.old.differ else u64_saturate (self.old.differ + 1)) }
    {
        self.comparisons = self.comparisons.saturating_add(1);
        if !same {
            self.differ = self.differ.saturating_add(1);
        }
    }
}
