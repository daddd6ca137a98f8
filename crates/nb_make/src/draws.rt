//! The numbers that are drawn from a seed.

ghost use Rattle.std.specs.Prelude.{◌≡◌};
ghost use Rattle.nb_make.specs.Draws.{next, drawn};

const FACTOR: u64 = 6_364_136_223_846_793_005;

const STEP: u64 = 1_442_695_040_888_963_407;

/// The state behind this one.
#[tactic(auto, unfolding(crate::specs::Draws::next))]
pub(crate) fn next(state: u64) -> u64
    ensures { result ≡ next state }
{
    state.wrapping_mul(FACTOR).wrapping_add(STEP)
}

/// The number below 2 ^ 31 that a draw gives which leaves this state.
pub(crate) fn drawn(state: u64) -> u64
    ensures { result ≡ drawn state }
{
    state / (1 << 33)
}
