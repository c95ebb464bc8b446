// Numbers drawn from the words of the generator, one word for each.
ghost use Rattle.std.specs.Prelude.{◌≡◌, ℕ, ◌+◌, ◌<◌};
ghost use Rattle.rw_gen.specs.Workload.{generator_at, draw};

use rand_core::utils::NextWord;
use rand_pcg::Pcg32;

/// The generator of the workload for this number.
pub(crate) fn generator(number: u64) -> Pcg32
    ensures { result ≡ generator_at number 0 }
{
    Pcg32::new(number, 0)
}

/// The next word of the generator, modulo `below`.
pub(crate) fn draw_below(rng: &mut Pcg32, below: u32) -> u32
    requires { 0 < below }
    ensures value { (number at : ℕ) → rng.old ≡ generator_at number at → result ≡ draw number at below }
    ensures moved { (number at : ℕ) → rng.old ≡ generator_at number at → rng.new ≡ generator_at number (at + 1) }
{
    rng.next_word() % below
}
