// The market table's words.
ghost use Rattle.std.specs.Prelude.{◌≡◌, ◌+◌, ◌*◌, ◌≤◌, ◌<◌, length};
ghost use Rattle.rules.specs.Fold.{five};
ghost use Rattle.rules.specs.Layout as layout;

use crate::header::market_at;
use bytes_le::word_at;
use std::array::from_fn;

// Where word j of the market table stands: five prices, five cap marks, APC, the clawback switch.
#[tactic(auto, using(laws::specs::Layouts::market_most))]
pub fn market_place(day: &[u8], j: usize) -> usize
    requires { (64 ≤ length day.now) × (j < 12) }
    ensures { result ≡ layout.market_at day.now + 4 * j }
{
    market_at(day) + 4 * j
}

// That word.
#[tactic(auto, using(laws::specs::Layouts::market_most))]
fn market_word(day: &[u8], j: usize) -> u32
    requires { (72 ≤ length day.now) × (j < 12) }
    ensures { result ≡ layout.market_word day.now j }
{
    word_at(day, market_place(day, j))
}

pub fn cap_mark(day: &[u8], s: usize) -> u32
    requires { (72 ≤ length day.now) × (s < 5) }
    ensures { result ≡ layout.cap_mark day.now s }
{
    market_word(day, 5 + s)
}

pub fn price_cap(day: &[u8]) -> u32
    requires { 72 ≤ length day.now }
    ensures { result ≡ layout.price_cap day.now }
{
    market_word(day, 10)
}

pub fn clawback(day: &[u8]) -> u32
    requires { 72 ≤ length day.now }
    ensures { result ≡ layout.clawback day.now }
{
    market_word(day, 11)
}

// The five market prices.
pub fn market_prices(day: &[u8]) -> [u32; 5]
    requires { 72 ≤ length day.now }
    ensures { result ≡ five (layout.market_price day.now) }
{
    from_fn(|s| market_word(day, s))
}

// The five cap marks.
pub fn cap_marks(day: &[u8]) -> [u32; 5]
    requires { 72 ≤ length day.now }
    ensures { result ≡ five (layout.cap_mark day.now) }
{
    from_fn(|s| cap_mark(day, s))
}
