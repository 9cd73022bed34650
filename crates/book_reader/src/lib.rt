// A book's fields read from its bytes (document 01, "Totals and book"). Framing.antt of crate `book_layout` has the definition of each
// field, and that what is read from a day's book is the day's.

#![tactic(auto)]

ghost use Rattle.std.specs.Prelude.{◌≡◌, ◌+◌, ◌*◌, ◌≤◌, ◌<◌, length};
ghost use Rattle.rules.specs.Fold.{five};
ghost use Rattle.rules.specs.Layout.{word};
ghost use Rattle.book_layout.specs.Reading.{moneys_at};
ghost use Rattle.book_layout.specs.Framing.{entry_at, book_lines, book_total, book_adjusted, book_participant, book_point, book_side};
ghost use Rattle.book_layout.specs.Framing.{book_count, book_payment};

use book_layout::entry_at;
use bytes_le::{signed_at, word_at};
use std::array::from_fn;

// Five signed numbers, `step` bytes apart, the first at byte `at`.
fn five_at(b: &[u8], at: usize, step: usize) -> [i64; 5]
    requires { at + 4 * step + 8 ≤ length b.now }
    ensures { result ≡ five (moneys_at b.now at step) }
{
    from_fn(|s| signed_at(b, at + s * step))
}

// Word j of entry k.
fn entry_word(book: &[u8], k: usize, j: usize) -> u32
    requires { (entry_at k + 56 ≤ length book.now) × (j < 4) }
    ensures { result ≡ word book.now (entry_at k + 4 * j) }
{
    word_at(book, entry_at(k) + 4 * j)
}

// How many lines the book has.
pub fn lines(book: &[u8]) -> u32
    requires { 4 ≤ length book.now }
    ensures { result ≡ book_lines book.now }
{
    word_at(book, 0)
}

// The totals t.
pub fn totals(book: &[u8]) -> [i64; 5]
    requires { 96 ≤ length book.now }
    ensures { result ≡ five (book_total book.now) }
{
    five_at(book, 16, 16)
}

// The adjusted totals a.
pub fn adjusted_totals(book: &[u8]) -> [i64; 5]
    requires { 96 ≤ length book.now }
    ensures { result ≡ five (book_adjusted book.now) }
{
    five_at(book, 24, 16)
}

// The participant of entry k.
pub fn participant(book: &[u8], k: usize) -> u32
    requires { entry_at k + 56 ≤ length book.now }
    ensures { result ≡ book_participant book.now k }
{
    entry_word(book, k, 0)
}

// The point of entry k.
pub fn point(book: &[u8], k: usize) -> u32
    requires { entry_at k + 56 ≤ length book.now }
    ensures { result ≡ book_point book.now k }
{
    entry_word(book, k, 1)
}

// The side of entry k.
pub fn side(book: &[u8], k: usize) -> u32
    requires { entry_at k + 56 ≤ length book.now }
    ensures { result ≡ book_side book.now k }
{
    entry_word(book, k, 2)
}

// The step count of entry k.
pub fn step_count(book: &[u8], k: usize) -> u32
    requires { entry_at k + 56 ≤ length book.now }
    ensures { result ≡ book_count book.now k }
{
    entry_word(book, k, 3)
}

// The five payments of entry k.
pub fn payments(book: &[u8], k: usize) -> [i64; 5]
    requires { entry_at k + 56 ≤ length book.now }
    ensures { result ≡ five (book_payment book.now k) }
{
    five_at(book, entry_at(k) + 16, 8)
}
