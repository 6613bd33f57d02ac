//! Numbers for tests that change files or make calls at random.
ghost use Rattle.fixtures_support.specs.Numbers.{next_state, number_below};
ghost use Rattle.std.specs.Prelude.{◌<◌, ◌≡◌};

/// A fixed generator of numbers.
#[derive(Drop)]
pub struct Numbers {
    state: u64,
}

impl Numbers {
    /// Makes a generator that begins with the state `state`.
    pub fn new(state: u64) -> Numbers
        ensures { result.state ≡ state }
    {
        Numbers { state }
    }

    /// Returns the next number below `n`.
    pub fn below(&mut self, n: usize) -> usize
        requires { 0 < n }
        ensures state { self.new.state ≡ next_state self.old.state }
        ensures number { result ≡ number_below self.new.state n }
        ensures below { result < n }
    {
        self.state = self
            .state
            .wrapping_mul(6364136223846793005)
            .wrapping_add(1442695040888963407);
        (self.state >> 33) as usize % n
    }

    /// Returns the next byte.
    pub fn byte(&mut self) -> u8
        ensures state { self.new.state ≡ next_state self.old.state }
        ensures number { result ≡ number_below self.new.state 256 }
    {
        self.below(256) as u8
    }
}
