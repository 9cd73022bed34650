// The certificate of demand 3 on real calls: what settling, the step view and the cutter answer for one day; and the laws of uplift (uplifts).

#![tactic(auto)]

pub mod line_sums;
pub mod matches;
pub mod uplifts;

ghost use Rattle.std.specs.Prelude.{◌≡◌, true, length};
ghost use Rattle.rules.specs.Refusals.{settle_fault};
ghost use Rattle.rules.specs.Book.{book_after};
ghost use Rattle.refusals.specs.Numbers.{fault_of};
ghost use Rattle.certificate_calls.specs.Calls.{CertifiedDay};

use cutter::cut;
use day_header::line_part;
use refusals::Refusal;
use settling::settle;
use view::view;

// Settles a day. Where it is settled, the lent book as it is then, the view's answers and the cutter's are certified.
pub fn settle_certified(day: &[u8], book: &mut [u8]) -> Result<(), Refusal>
    ensures value { fault_of result ≡ settle_fault day.now (length book.old) }
    ensures book_after { book.new ≡ book_after day.now book.old }
    ensures certified_day { fault_of result ≡ 0 → CertifiedDay day.now book.new }
{
    settle(day, book)
}

// Asks the view and the cutter for the end of one step and compares them: by the certificate they never differ. The cutter may refuse the
// line, where a record replaces one of its own rows: with 12 alone.
#[tactic(auto, using(crate::specs::Calls::step_few))]
pub fn ends_agree(day: &[u8], line: usize, step: usize) -> bool
    ensures { result ≡ true }
{
    let v = view(day, line, step);
    if v.number != 0 {
        true
    } else {
        let c = cut(line_part(day, line));
        if c.number != 0 {
            c.number == 12
        } else {
            c.ends[step] == v.end
        }
    }
}
