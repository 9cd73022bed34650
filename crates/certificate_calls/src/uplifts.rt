// The laws of each schedule's uplift (document 02, F-1) on real calls: what settling and the uplift call answer for one day.
ghost use Rattle.std.specs.Prelude.{◌≡◌, length};
ghost use Rattle.rules.specs.Refusals.{settle_fault};
ghost use Rattle.rules.specs.Uplift.{uplift_answer};
ghost use Rattle.rules.specs.Book.{book_after};
ghost use Rattle.day_uplift.specs.Answers.{answer_of};
ghost use Rattle.certificate.specs.Uplift.{CertifiedUplift};

use day_uplift::uplift;
use refusals::Refusal;
use settling::settle;

// Settles a day and works out its uplift. Where it is settled, the shares have the laws, with the totals, adjusted totals and payments of the
// lent book as it is then.
pub fn uplift_certified(day: &[u8], book: &mut [u8]) -> Result<[i64; 5], Refusal>
    ensures value { answer_of result ≡ uplift_answer day.now }
    ensures book_after { book.new ≡ book_after day.now book.old }
    ensures certified_uplift { settle_fault day.now (length book.old) ≡ 0 → CertifiedUplift book.new (answer_of result).shares }
{
    let _settled = settle(day, book);
    uplift(day)
}
