// A line's fields before its bids, and where its quantities stand.
ghost use Rattle.std.specs.Prelude.{◌≡◌, ◌+◌, ◌*◌, ◌<◌};
ghost use Rattle.rules.specs.Layout as layout;

use crate::header::Line;
use bytes_le::word_at;

pub fn participant(line: &Line) -> u32
    ensures { result ≡ layout.participant line.now }
{
    word_at(line, 0)
}

pub fn point(line: &Line) -> u32
    ensures { result ≡ layout.point line.now }
{
    word_at(line, 4)
}

// 0 injection, 1 withdrawal
pub fn side(line: &Line) -> u32
    ensures { result ≡ layout.side line.now }
{
    word_at(line, 8)
}

pub fn accreditation(line: &Line) -> u32
    ensures { result ≡ layout.accreditation line.now }
{
    word_at(line, 12)
}

pub fn hedge(line: &Line) -> u32
    ensures { result ≡ layout.hedge line.now }
{
    word_at(line, 16)
}

// Entry j of the fifteen pricing quantities, which stand row by row.
pub fn pricing_word(line: &Line, j: usize) -> u32
    requires { j < 15 }
    ensures { result ≡ layout.field line.now (120 + j) }
{
    word_at(line, 4 * (120 + j))
}

// The operating quantity of schedule s in interval i.
pub fn operating_entry(line: &Line, s: usize, i: usize) -> u32
    requires { (s < 5) × (i < 5) }
    ensures { result ≡ layout.operating_entry line.now s i }
{
    word_at(line, 4 * (135 + (5 * s + i)))
}

// Where the actual of interval i stands.
pub fn actual_place(i: usize) -> usize
    requires { i < 5 }
    ensures { result ≡ 4 * (160 + i) }
{
    4 * (160 + i)
}

pub fn actual_entry(line: &Line, i: usize) -> u32
    requires { i < 5 }
    ensures { result ≡ layout.actual_entry line.now i }
{
    word_at(line, actual_place(i))
}
