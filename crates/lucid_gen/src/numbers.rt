// The generator of numbers.
ghost use Rattle.std.specs.Prelude.{◌≡◌, ◌<◌};
ghost use Rattle.lucid_gen.specs.Draws.{below, next};

const MULTIPLIER: u64 = 6_364_136_223_846_793_005;

const INCREMENT: u64 = 1_442_695_040_888_963_407;

/// Numbers that are drawn one after another, each from a state that follows the last.
#[derive(Drop)]
pub(crate) struct Numbers {
    state: u64,
}

impl Numbers {
    /// The numbers of a seed.
    pub(crate) fn new(seed: u64) -> Numbers
        ensures { result.state ≡ seed }
    {
        Numbers { state: seed }
    }

    /// A number below the bound.
    pub(crate) fn draw(&mut self, bound: u64) -> u64
        requires { 0 < bound }
        ensures gives { result ≡ (below bound self.old.state).gives }
        ensures after { self.new.state ≡ (below bound self.old.state).after }
        ensures within { result < bound }
    {
        self.step();
        (self.state >> 33) % bound
    }

    fn step(&mut self)
        ensures { self.new.state ≡ next self.old.state }
    {
        self.state = MULTIPLIER.wrapping_mul(self.state).wrapping_add(INCREMENT);
    }
}
