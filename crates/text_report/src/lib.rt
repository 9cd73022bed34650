// The settling program's report, read off a book's bytes and written into lent bytes (document 01, K10).

#![tactic(auto)]

ghost use Rattle.std.specs.Prelude.{◌≡◌, ◌+◌, ◌*◌, ◌≤◌, length};
ghost use Rattle.rules.specs.Fold.{joined};
ghost use Rattle.rules.specs.Refusals.{book_length};
ghost use Rattle.text.specs.Put.{Written};
ghost use Rattle.book_layout.specs.Framing.{entry_at, book_lines};
ghost use Rattle.text_report.specs.BookText.{entry_text, book_text, report_most, report_of};

use book_layout::entry_at;
use book_reader::{adjusted_totals, lines, participant, payments, point, side, step_count, totals};
use text::refused::put_refused;
use text_lines::{put_heading, put_line, put_totals};

// The bytes that the longest report takes: its first line, 64 lines, the totals.
pub const REPORT_MOST: usize = 25 + 177 * 64 + 235;

// The line of a book's entry k.
fn put_entry(out: &mut [u8], at: usize, book: &[u8], k: usize) -> usize
    requires { (at + 177 ≤ length out.old) × (entry_at k + 56 ≤ length book.now) }
    ensures { Written 177 out.old at (entry_text book.now k) result out.new }
{
    put_line(
        out,
        at,
        participant(book, k),
        point(book, k),
        side(book, k),
        step_count(book, k),
        payments(book, k),
    )
}

// The lines of a book's first n entries. The loop maintains that those of the first k are put.
fn put_entries(out: &mut [u8], at: usize, book: &[u8], n: usize) -> usize
    requires { (at + 177 * n ≤ length out.old) × (book_length n ≤ length book.now) }
    ensures { Written (177 * n) out.old at (joined n (entry_text book.now)) result out.new }
{
    let mut p = at;
    for k in 0..n {
        p = put_entry(out, p, book, k);
    }
    p
}

// The report of a book.
fn put_book(out: &mut [u8], book: &[u8], n: u32) -> usize
    requires { (report_most ≤ length out.old) × (n ≡ book_lines book.now) × (n ≤ 64) × (book_length n ≤ length book.now) }
    ensures { Written report_most out.old 0 (book_text book.now) result out.new }
{
    let a = put_heading(out, 0, n);
    let b = put_entries(out, a, book, n as usize);
    put_totals(out, b, totals(book), adjusted_totals(book))
}

// The report: of a refusal where the number isn't 0, else of the book. It answers how many bytes it put, and puts none where
// fewer than `REPORT_MOST` are lent or the book is none.
pub fn report(number: u32, book: &[u8], out: &mut [u8]) -> usize
    ensures { Written (length out.old) out.old 0 (report_of number book.now (length out.old)) result out.new }
{
    if out.len() < REPORT_MOST {
        return 0;
    }
    if number != 0 {
        return put_refused(out, 0, number);
    }
    if book.len() < entry_at(0) {
        return 0;
    }
    let n = lines(book);
    if n > 64 {
        return 0;
    }
    if book.len() < entry_at(n as usize) {
        return 0;
    }
    put_book(out, book, n)
}
