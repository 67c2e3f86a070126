//! The generator of samples.
ghost use Rattle.std.specs.Prelude.{◌<◌, ◌^◌};

/// The generator: its number, which each draw changes.
#[derive(Drop)]
pub struct Generator {
    number: u64,
    ghost within: { number < 2 ^ 48 },
}

impl Generator {
    ghost use Rattle.std.specs.Prelude.{◌≡◌, ◌<◌, ◌^◌};
    ghost use Rattle.catalogue.specs.Samples.{next_number, drawn_from};

    /// Returns the generator with a seed below 2^48.
    pub fn new(seed: u64) -> Generator
        requires { seed < 2 ^ 48 }
        ensures { result.number ≡ seed }
    {
        Generator { number: seed }
    }

    /// Changes the number of the generator, and returns one draw.
    #[tactic(auto, unfolding(crate::specs::Samples::next_number, crate::specs::Samples::drawn_from))]
    pub fn draw(&mut self) -> u64
        ensures number { self.new.number ≡ next_number self.old.number }
        ensures drawn { result ≡ drawn_from self.new.number }
    {
        let next = (self.number as u128 * 25_214_903_917 + 11) % (1 << 48);
        self.number = next as u64;
        self.number / (1 << 20)
    }
}
