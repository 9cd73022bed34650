// The words of a line's five bids: each a count, 11 breaks and 11 prices.
ghost use Rattle.std.specs.Prelude.{◌≡◌, ◌+◌, ◌*◌, ◌<◌};
ghost use Rattle.rules.specs.Layout as layout;

use crate::header::Line;
use bytes_le::word_at;

// Where word i of the bid of schedule s stands.
fn bid_place(s: usize, i: usize) -> usize
    requires { (s < 5) × (i < 23) }
    ensures { result ≡ 4 * (layout.bid_word s + i) }
{
    4 * (5 + 23 * s + i)
}

// Where its break and its price of step j stand.
pub fn break_place(s: usize, j: usize) -> usize
    requires { (s < 5) × (j < 11) }
    ensures { result ≡ 4 * (layout.bid_word s + 1 + j) }
{
    bid_place(s, 1 + j)
}

pub fn price_place(s: usize, j: usize) -> usize
    requires { (s < 5) × (j < 11) }
    ensures { result ≡ 4 * (layout.bid_word s + 12 + j) }
{
    bid_place(s, 12 + j)
}

// Where the word before its price of step j stands.
pub fn before_price(s: usize, j: usize) -> usize
    requires { (s < 5) × (j < 11) }
    ensures { result ≡ 4 * (layout.bid_word s + 11 + j) }
{
    bid_place(s, 11 + j)
}

// How many steps the bid of schedule s has.
pub fn bid_count(line: &Line, s: usize) -> usize
    requires { s < 5 }
    ensures { result ≡ layout.bid_count line.now s }
{
    word_at(line, bid_place(s, 0)) as usize
}

// Word i of the bid of schedule s: its count, its break of step i, counted from 1, its price of step i - 11.
pub fn bid_word(line: &Line, s: usize, i: usize) -> u32
    requires { (s < 5) × (i < 23) }
    ensures { result ≡ layout.field line.now (layout.bid_word s + i) }
{
    word_at(line, bid_place(s, i))
}

pub fn bid_break(line: &Line, s: usize, j: usize) -> u32
    requires { (s < 5) × (j < 11) }
    ensures { result ≡ layout.bid_break line.now s j }
{
    word_at(line, break_place(s, j))
}

pub fn bid_price(line: &Line, s: usize, j: usize) -> u32
    requires { (s < 5) × (j < 11) }
    ensures { result ≡ layout.bid_price line.now s j }
{
    word_at(line, price_place(s, j))
}
