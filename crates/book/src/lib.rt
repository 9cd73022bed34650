// The parts of a book (document 01, "Totals and book") written into lent bytes from a place on. Each function answers the place after
// its part. `Written` of crate `text` (specs/Put.antt) says what stands in the bytes then.

#![tactic(auto)]

ghost use Rattle.std.specs.Prelude.{◌≡◌, ◌+◌, ◌≤◌, ◌++◌, length};
ghost use Rattle.rules.specs.Fold.{joined, at_z};
ghost use Rattle.rules.specs.Book.{word_bytes, signed_bytes};
ghost use Rattle.text.specs.Put.{Written};
ghost use Rattle.book_layout.specs.Framing.{four_words};
ghost use Rattle.book.specs.Entries.{money_bytes, pair_bytes, entry_of, front_of};

// A word.
fn put_word(book: &mut [u8], at: usize, v: u32) -> usize
    requires { at + 4 ≤ length book.old }
    ensures { Written 4 book.old at (word_bytes v) result book.new }
{
    bytes_le::put_word(book, at, v);
    at + 4
}

// An amount of money.
fn put_money(book: &mut [u8], at: usize, v: i64) -> usize
    requires { at + 8 ≤ length book.old }
    ensures { Written 8 book.old at (signed_bytes v) result book.new }
{
    bytes_le::put_signed(book, at, v);
    at + 8
}

// Four words.
fn put_words(book: &mut [u8], at: usize, a: u32, b: u32, c: u32, d: u32) -> usize
    requires { at + 16 ≤ length book.old }
    ensures { Written 16 book.old at (four_words a b c d) result book.new }
{
    let e = put_word(book, at, a);
    let f = put_word(book, e, b);
    let g = put_word(book, f, c);
    put_word(book, g, d)
}

// Five amounts. The loop maintains that the first s are put.
fn put_five(book: &mut [u8], at: usize, v: [i64; 5]) -> usize
    requires { at + 40 ≤ length book.old }
    ensures { Written 40 book.old at (joined 5 (money_bytes (at_z v))) result book.new }
{
    let mut p = at;
    for s in 0..5 {
        p = put_money(book, p, v[s]);
    }
    p
}

// A pair t, a.
fn put_pair(book: &mut [u8], at: usize, t: i64, a: i64) -> usize
    requires { at + 16 ≤ length book.old }
    ensures { Written 16 book.old at (signed_bytes t ++ signed_bytes a) result book.new }
{
    let p = put_money(book, at, t);
    put_money(book, p, a)
}

// The five pairs t, a. The loop maintains that the first s are put.
fn put_pairs(book: &mut [u8], at: usize, t: [i64; 5], a: [i64; 5]) -> usize
    requires { at + 80 ≤ length book.old }
    ensures { Written 80 book.old at (joined 5 (pair_bytes (at_z t) (at_z a))) result book.new }
{
    let mut p = at;
    for s in 0..5 {
        p = put_pair(book, p, t[s], a[s]);
    }
    p
}

// One line of the book.
pub fn put_entry(
    book: &mut [u8],
    at: usize,
    participant: u32,
    point: u32,
    side: u32,
    count: u32,
    paid: [i64; 5],
) -> usize
    requires { at + 56 ≤ length book.old }
    ensures { Written 56 book.old at (entry_of participant point side count (at_z paid)) result book.new }
{
    let p = put_words(book, at, participant, point, side, count);
    put_five(book, p, paid)
}

// The words and the pairs before the book's lines.
pub fn put_front(book: &mut [u8], n: u32, t: [i64; 5], a: [i64; 5]) -> usize
    requires { (n ≤ 64) × (96 ≤ length book.old) }
    ensures { Written 96 book.old 0 (front_of n (at_z t) (at_z a)) result book.new }
{
    let p = put_words(book, 0, n, 16, 96, 96 + 56 * n);
    put_pairs(book, p, t, a)
}
