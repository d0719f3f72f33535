ghost use Rattle.std.specs.Prelude.{◌≡◌, ◌<◌};
ghost use Rattle.xt_vectors.specs.Draws as spec;

/// Numbers drawn one after another from a state.
#[derive(Drop)]
pub(crate) struct Draws {
    state: u64,
}

/// The state behind a state.
#[tactic(auto, unfolding(crate::specs::Draws::next))]
fn next(state: u64) -> u64
    ensures { result ≡ spec.next state }
{
    let sum = u128::from(state) * 6_364_136_223_846_793_005 + 1_442_695_040_888_963_407;
    (sum % 18_446_744_073_709_551_616) as u64
}

impl Draws {
    pub(crate) fn new(seed: u64) -> Draws
        ensures { result.state ≡ seed }
    {
        Draws { state: seed }
    }

    /// Draws a number below `bound`.
    #[tactic(auto, unfolding(crate::specs::Draws::drawn))]
    pub(crate) fn draw(&mut self, bound: u32) -> u32
        requires { 0 < bound }
        ensures number { result ≡ spec.drawn bound self.old.state }
        ensures state { self.new.state ≡ spec.next self.old.state }
        ensures bound { result < bound }
    {
        self.state = next(self.state);
        (self.state / 8_589_934_592 % u64::from(bound)) as u32
    }
}
