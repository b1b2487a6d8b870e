//! Numbers by chance, the same in each run.
ghost use Rattle.std.specs.Prelude.{◌≤◌, ◌<◌};

use rand_core::utils::NextWord;
use rand_pcg::Pcg32;

/// The generator of all runs.
pub fn generator() -> Pcg32 {
    Pcg32::new(42, 54)
}

pub fn draw(rng: &mut Pcg32, bound: u32) -> u32
    requires { 1 ≤ bound }
    ensures { result < bound }
{
    rng.next_word() % bound
}
