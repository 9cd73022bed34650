// Settling for other languages.
ghost use Rattle.std.specs.Prelude.{◌≡◌, length};
ghost use Rattle.rules.specs.Refusals.{settle_fault};
ghost use Rattle.rules.specs.Book.{book_after};

use refusals::number_of;
use settling::settle;

// Settling (document 01, "Totals and book"), for any bytes and any lent length. Answers the number. Refused, the lent book is as it was.
#[unsafe(no_mangle)]
pub extern "C" fn mewikofu_settle(day: &[u8], book: &mut [u8]) -> u32
    ensures value { result ≡ settle_fault day.now (length book.old) }
    ensures book_after { book.new ≡ book_after day.now book.old }
{
    number_of(settle(day, book))
}
