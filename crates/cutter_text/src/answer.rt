// The text of the cutter's answer for one line: `cut COUNT`, for each step `END P1 P2 P3 P4 P5`, `flags F1 .. F5`,
// `missing N1 .. N5`; or `refused` and the number. Each function answers the place after its text.
ghost use Rattle.std.specs.Prelude.{◌≡◌, ◌≤◌, length, OnOk};
ghost use Rattle.std.specs.Io.KnownBytes.{Appends};
ghost use Rattle.std.proofs.lemmas.List.Edits.{sets};
ghost use Rattle.rules.specs.Cutting.{cut_answer};
ghost use Rattle.text.specs.Put.{Written};
ghost use Rattle.cutter_text.specs.CutText.{accepted_text, cut_text, text_most, lent_text};

use crate::rows::{put_count, put_row, put_steps};
use cutter::cut;
use rules::Cut;
use std::io;
use std::io::Write;
use text::refused::put_refused;

// The bytes that no answer's text passes.
pub const TEXT_MOST: usize = 8000;

// The text of an answer with the number 0.
fn put_accepted(out: &mut [u8], r: Cut, count: usize) -> usize
    requires { (count ≡ r.count) × (count ≤ 56) × (text_most ≤ length out.old) }
    ensures { Written text_most out.old 0 (accepted_text r) result out.new }
{
    let a = put_count(out, r.count);
    let b = put_steps(out, a, r, count);
    let c = put_row(out, b, b"flags", r.flags);
    put_row(out, c, b"missing", r.missing.map(u64::from))
}

// The text of an answer.
fn put_cut(out: &mut [u8], r: Cut) -> usize
    requires { (r.count ≤ 56) × (text_most ≤ length out.old) }
    ensures { Written text_most out.old 0 (cut_text r) result out.new }
{
    if r.number != 0 {
        put_refused(out, 0, r.number)
    } else {
        put_accepted(out, r, r.count as usize)
    }
}

// The text of a line's cut, at the front of the lent bytes. Answers how many it takes, and 0 with nothing written where fewer than
// `TEXT_MOST` are lent.
pub fn put_line(out: &mut [u8], line: &[u8]) -> usize
    ensures { Written (length out.old) out.old 0 (lent_text (cut_answer line.now) (length out.old)) result out.new }
{
    if out.len() < TEXT_MOST {
        0
    } else {
        put_cut(out, cut(line))
    }
}

// Prints the text of a line's cut, made at the front of the lent bytes.
pub fn print_line<W: Write>(output: &mut W, out: &mut [u8], line: &[u8]) -> io::Result<()>
    ensures made { out.new ≡ sets out.old 0 (lent_text (cut_answer line.now) (length out.old)) }
    ensures printed { OnOk result (Appends (W.contents output.old) (W.contents output.new) (lent_text (cut_answer line.now) (length out.old))) }
{
    let end = put_line(out, line);
    output.write_all(&out[..end])
}
