// What the programs print for a file that is longer than any accepted one, from its first bytes and its length.

#![tactic(auto)]

ghost use Rattle.std.specs.Prelude.{◌≡◌, ℕ, ◌≤◌, ◌<◌, List, length};
ghost use Rattle.rules.specs.Report.{report_text};
ghost use Rattle.day_header.specs.Long.{Begins};
ghost use Rattle.text.specs.Put.{Written};

use day_header::check_long;
use refusals::number_of;
use text::refused::put_refused;

// The report, which is a refusal, of any file of `size` bytes that begins with the lent ones. It answers how many bytes it put.
pub fn put_long(out: &mut [u8], head: &[u8], size: usize) -> usize
    requires { (64 ≤ length head.now) × (44360 < size) × (29 ≤ length out.old) }
    ensures upper_bound { result ≤ 29 }
    ensures by_index { (d : List ℕ) → Begins d head.now → length d ≡ size → Written 29 out.old 0 (report_text d) result out.new }
{
    put_refused(out, 0, number_of(check_long(head, size)))
}
