//! The generator of numbers.
ghost use Rattle.std.specs.Prelude.{◌≡◌, ◌<◌};
ghost use Rattle.cb_gen.specs.Draws.{state_of_next_draw, drawn};

/// Numbers that are drawn one after the other, the same ones from the same start.
#[derive(Drop)]
pub struct Draws {
    pub state: u64,
}

impl Draws {
    /// Draws the next number, below this one.
    pub fn below(&mut self, below: u64) -> u64
        requires { 0 < below }
        ensures state { self.new.state ≡ state_of_next_draw self.old.state }
        ensures value { result ≡ drawn (state_of_next_draw self.old.state) below }
        ensures small { result < below }
    {
        self.step();
        (self.state >> 33) % below
    }

    // Goes on to the next state.
    fn step(&mut self)
        ensures { self.new.state ≡ state_of_next_draw self.old.state }
    {
        self.state = self
            .state
            .wrapping_mul(6_364_136_223_846_793_005)
            .wrapping_add(1_442_695_040_888_963_407);
    }
}
