// Settling: a day's bytes to its book (document 01, "Totals and book").

#![tactic(auto)]

ghost use Rattle.std.specs.Prelude.{◌≡◌, length};
ghost use Rattle.rules.specs.Refusals.{settle_fault};
ghost use Rattle.rules.specs.Book.{book_after};
ghost use Rattle.refusals.specs.Numbers.{fault_of};

use book_layout::entry_at;
use day::check_day;
use day_book::put_book;
use layout::header::line_count;
use refusals::Refusal;

// Settles a day into a lent book, for any bytes and any lent length. Refused, the lent book is as it was.
pub fn settle(day: &[u8], book: &mut [u8]) -> Result<(), Refusal>
    ensures value { fault_of result ≡ settle_fault day.now (length book.old) }
    ensures book_after { book.new ≡ book_after day.now book.old }
{
    check_day(day)?;
    if book.len() < entry_at(line_count(day)) {
        return Err(Refusal::BookShort);
    }
    put_book(day, book);
    Ok(())
}
