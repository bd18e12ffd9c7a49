//! Random numbers.
ghost use Rattle.std.specs.Prelude.{◌<◌, length};

/// A source of random numbers, which are the same in each run.
#[derive(Drop)]
pub struct Random {
    /// The last number, which is not 0.
    state: u64,
}

impl Random {
    /// Makes the source with this seed, which must not be 0.
    pub fn new(seed: u64) -> Random {
        Random { state: seed }
    }

    /// Returns a number below the bound, which must not be 0.
    pub fn below(&mut self, bound: u64) -> u64
        requires { 0 < bound }
        ensures { result < bound }
    {
        self.state ^= self.state << 13;
        self.state ^= self.state >> 7;
        self.state ^= self.state << 17;
        self.state % bound
    }

    /// Returns a number that is at most `most`.
    pub fn up_to(&mut self, most: u32) -> u32 {
        self.below(most as u64 + 1) as u32
    }

    /// Returns one of these values. There must be at least one.
    pub fn one_of<T: Copy>(&mut self, values: &[T]) -> T
        requires { 0 < length values.now }
    {
        values[self.below(values.len() as u64) as usize]
    }
}
