// A day's book put into lent bytes, from what its lines are paid and its totals.

#![tactic(auto)]

ghost use Rattle.std.specs.Prelude.{◌≡◌, ◌+◌, ◌≤◌, ◌<◌, ◌++◌, length, drop};
ghost use Rattle.std.proofs.lemmas.List.Edits.{sets};
ghost use Rattle.rules.specs.Fold.{joined};
ghost use Rattle.rules.specs.Layout.{line_count};
ghost use Rattle.rules.specs.Refusals.{book_length};
ghost use Rattle.rules.specs.Days.{settled_day};
ghost use Rattle.rules.specs.Book.{line_entry, book_of};
ghost use Rattle.laws.specs.Accepted.{AcceptedDay};
ghost use Rattle.day_paid.specs.Paid.{PaidDay};

use book::{put_entry, put_front};
use book_layout::entry_at;
use day_paid::{UNPAID, day_paid};
use layout::fields::{participant, point, side};
use layout::header::{count_word, line_count, line_of};

// Line k of the book, from byte `at` on.
fn put_line(day: &[u8], k: usize, paid: &[i64; 320], counts: &[u32; 64], book: &mut [u8], at: usize)
    requires { (AcceptedDay day.now) × (PaidDay (settled_day day.now) paid.now counts.now) × (k < line_count day.now)
        × (at + 56 ≤ length book.old) }
    ensures { book.new ≡ sets book.old at (line_entry (settled_day day.now) k) }
{
    let line = line_of(day, k);
    let p = 5 * k;
    let payments = [paid[p], paid[p + 1], paid[p + 2], paid[p + 3], paid[p + 4]];
    put_entry(
        book,
        at,
        participant(line),
        point(line),
        side(line),
        counts[k],
        payments,
    );
}

// The lines of the book. The loop maintains that the first k are put.
fn put_lines(day: &[u8], paid: &[i64; 320], counts: &[u32; 64], book: &mut [u8])
    requires { (AcceptedDay day.now) × (PaidDay (settled_day day.now) paid.now counts.now) × (book_length (line_count day.now) ≤ length book.old) }
    ensures { book.new ≡ sets book.old 96 (joined (line_count day.now) (line_entry (settled_day day.now))) }
{
    for k in 0..line_count(day) {
        put_line(day, k, paid, counts, book, entry_at(k));
    }
}

// The book of an accepted day.
pub fn put_book(day: &[u8], book: &mut [u8])
    requires { (AcceptedDay day.now) × (book_length (line_count day.now) ≤ length book.old) }
    ensures { book.new ≡ book_of (settled_day day.now) ++ drop (book_length (line_count day.now)) book.old }
{
    let mut paid = [UNPAID; 320];
    let mut counts = [0; 64];
    let totals = day_paid(day, &mut paid, &mut counts);
    put_lines(day, &paid, &counts, book);
    put_front(book, count_word(day), totals.t, totals.a);
}
