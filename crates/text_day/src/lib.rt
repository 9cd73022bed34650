// The settling program's report of a day, written into lent bytes (document 01, K10).

#![tactic(auto)]

ghost use Rattle.std.specs.Prelude.{[], cond, ltb, length};
ghost use Rattle.rules.specs.Report.{report_text};
ghost use Rattle.text.specs.Put.{Written};
ghost use Rattle.text_report.specs.BookText.{report_most};

use refusals::number_of;
use settling::settle;
use text_report::report;

// Settles a day into a book of its own and puts the report. It answers how many bytes it put: none where fewer than
// `text_report::REPORT_MOST` are lent.
pub fn day_report(day: &[u8], out: &mut [u8]) -> usize
    ensures { Written (length out.old) out.old 0 (cond (ltb (length out.old) report_most) [] (report_text day.now)) result out.new }
{
    let mut book = [0u8; 3680];
    let settled = settle(day, &mut book);
    report(number_of(settled), &book, out)
}
