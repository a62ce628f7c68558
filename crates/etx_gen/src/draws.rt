ghost use Rattle.std.specs.Prelude.{◌≡◌, ◌<◌};
ghost use Rattle.etx_gen.specs.Draws.{next_seed, drawn};

/// A stream of draws, which its seed decides.
#[derive(Drop)]
pub struct Draws {
    pub seed: u32,
}

impl Draws {
    /// The next draw, below 2^15.
    #[tactic(auto, unfolding(crate::specs::Draws::next_seed, crate::specs::Draws::drawn))]
    pub fn draw(&mut self) -> u32
        ensures value { result ≡ drawn self.old.seed }
        ensures after { self.new.seed ≡ next_seed self.old.seed }
        ensures small { result < 32768 }
    {
        let product = u64::from(self.seed) * 1_103_515_245 + 12_345;
        self.seed = (product % 0x8000_0000) as u32;
        self.seed / 65_536
    }
}
