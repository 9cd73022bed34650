// The day file: its refusals, of the header, the market table, the records, the lines and their keys.

#![tactic(auto)]

mod equal_keys;
mod market;
mod records;

ghost use Rattle.std.specs.Prelude.{◌≡◌};
ghost use Rattle.rules.specs.Refusals.{day_fault};
ghost use Rattle.refusals.specs.Numbers.{fault_of};

use crate::equal_keys::check_keys;
use crate::market::check_market;
use crate::records::check_records;
use day_header::check_header;
use layout::header::{line_count, lines_at};
use layout::records::Records;
use line::check_lines;
use refusals::Refusal;

// The refusal of a day file, for any bytes: refusals 1 to 14 and 19 to 21 in the documents' order.
#[tactic(auto, using(crate::proofs::Laws::day_laws))]
pub fn check_day(day: &[u8]) -> Result<(), Refusal>
    ensures { fault_of result ≡ day_fault day.now }
{
    check_header(day)?;
    check_market(day)?;
    let n = line_count(day);
    let records = Records::of(day);
    check_records(&records, n)?;
    check_lines(day, lines_at(day), n, records.from, records.count)?;
    check_keys(day, n)
}
