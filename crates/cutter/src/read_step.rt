// One step's prices and flags, read from the cutter's answer.
ghost use Rattle.std.specs.Prelude.{◌≡◌, ◌<◌};
ghost use Rattle.rules.specs.Fold.{five};
ghost use Rattle.cutter.specs.Arrays.{bit_at, price_in, flag_in};

use std::array::from_fn;

// The prices of step j.
#[tactic(auto, unfolding(crate::specs::Arrays::price_in))]
pub fn price_row(prices: &[u32; 280], j: usize) -> [u32; 5]
    requires { j < 56 }
    ensures { result ≡ five (price_in prices.now j) }
{
    from_fn(|s| prices[56 * s + j])
}

// Bit j of a word of flags.
#[tactic(auto, using(crate::proofs::read_step::Laws::bit_shift))]
fn flag_at(word: u64, j: usize) -> u32
    requires { j < 56 }
    ensures { result ≡ bit_at word j }
{
    ((word >> j) % 2) as u32
}

// The flags of step j.
#[tactic(auto, unfolding(crate::specs::Arrays::flag_in))]
pub fn flag_row(words: [u64; 5], j: usize) -> [u32; 5]
    requires { j < 56 }
    ensures { result ≡ five (flag_in words j) }
{
    words.map(|word| flag_at(word, j))
}
