//! The draws of a seed: a linear congruential generator of 32 bits, of which the upper half is given.
//! Another generator is another rule in `specs/Balls.antt`, and gives each seed another picture.
ghost use Rattle.std.specs.Prelude.{◌≡◌, ◌<◌, ◌^◌};
ghost use Rattle.shape_grid.specs.Balls.{drawn_state, draw};

const MULTIPLIER: u32 = 1664525;

const INCREMENT: u32 = 1013904223;

/// The draws that follow a state of the generator. At the beginning the state is the seed.
#[derive(Drop)]
pub struct Draws {
    /// The state.
    pub state: u32,
}

impl Draws {
    /// The next draw: the upper half of the next state.
    pub fn next(&mut self) -> u32
        ensures drawn { result ≡ draw self.old.state 0 }
        ensures small { result < 2 ^ 16 }
        ensures state { self.new.state ≡ drawn_state self.old.state 1 }
    {
        self.state = self.state.wrapping_mul(MULTIPLIER).wrapping_add(INCREMENT);
        self.state / 65536
    }
}
