// The draws of the generator.
ghost use Rattle.std.specs.Prelude.{◌≡◌, ◌<◌};
ghost use Rattle.fib_soak.specs.Draws.{next, draw, wide};

use std::marker::Model;

/// A linear congruential generator of 64 bits: each draw replaces the state. Contracts see the state.
#[derive(Drop)]
pub(crate) struct Draws {
    state: u64,
}

impl Model for Draws {
    ghost use Rattle.std.specs.Prelude.{ℕ};

    ghost Value = { ℕ };

    ghost view = { λ d. d.state };

    ghost inverse = { λ n. record { state = n } };
}

impl Draws {
    /// The generator at that state.
    pub(crate) fn from_state(state: u64) -> Draws
        ensures { result ≡ state }
    {
        Draws { state }
    }

    #[tactic(auto, unfolding(crate::specs::Draws::next))]
    fn step(&mut self) -> u64
        ensures value { result ≡ next self.old }
        ensures state { self.new ≡ next self.old }
    {
        self.state = self
            .state
            .wrapping_mul(6_364_136_223_846_793_005)
            .wrapping_add(1_442_695_040_888_963_407);
        self.state
    }

    /// A number below `below`, from the state's highest 31 bits.
    #[tactic(auto, unfolding(crate::specs::Draws::draw))]
    pub(crate) fn draw(&mut self, below: u32) -> u32
        requires { 0 < below }
        ensures value { result ≡ draw below self.old }
        ensures bound { result < below }
        ensures state { self.new ≡ next self.old }
    {
        let highest = (self.step() >> 33) as u32;
        highest % below
    }

    /// A number of 32 bits, the state's higher half.
    #[tactic(auto, unfolding(crate::specs::Draws::wide))]
    pub(crate) fn wide(&mut self) -> u32
        ensures value { result ≡ wide self.old }
        ensures state { self.new ≡ next self.old }
    {
        (self.step() >> 32) as u32
    }
}
