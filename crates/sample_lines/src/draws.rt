//! Numbers drawn one after another.
ghost use Rattle.std.specs.Prelude.{◌≡◌, ◌<◌, ◌^◌};
ghost use Rattle.sample_lines.specs.Draws.{draw, next_state};

/// A linear congruential generator modulo 2^31, with the multiplier and the increment of the C standard's example of `rand`.
#[derive(Drop)]
pub(crate) struct Draws {
    pub(crate) state: u32,
    ghost in_range: { state < 2 ^ 31 },
}

impl Draws {
    pub(crate) fn new(state: u32) -> Draws
        requires { state < 2 ^ 31 }
        ensures { result.state ≡ state }
    {
        Draws { state }
    }

    /// The next number below a limit.
    #[tactic(auto, unfolding(crate::specs::Draws::next_state))]
    pub(crate) fn below(&mut self, limit: u32) -> u32
        requires { 0 < limit }
        ensures drawn { result ≡ (draw limit self.old.state).value }
        ensures state { self.new.state ≡ (draw limit self.old.state).state }
        ensures below { result < limit }
    {
        let next = (u64::from(self.state) * 1_103_515_245 + 12_345) % (1 << 31);
        self.state = next as u32;
        self.state / 65_536 % limit
    }
}
