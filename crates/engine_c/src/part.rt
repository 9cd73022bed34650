// The line part for other languages.
ghost use Rattle.std.specs.Prelude.{◌≡◌, take, drop};
ghost use Rattle.rules.specs.Refusals.{line_part_fault, line_part};
ghost use Rattle.engine_c.specs.Parts.{part_at, part_length};

use day_header::check_line_part;
use layout::header::{LINE_BYTES, line_place};

// The bytes of line k (document 01, "Steps and prices"), lent by place: they are the `length` bytes of the day from byte `at` on.
// Answers the number; refused, both places are 0 and the part is empty.
#[tactic(auto, using(day_header::proofs::Header::part_within), unfolding(crate::specs::Parts::part_at, crate::specs::Parts::part_length, rules::specs::Refusals::line_part))]
#[unsafe(no_mangle)]
pub extern "C" fn mewikofu_line_part(
    day: &[u8],
    k: usize,
    at: &mut usize,
    length: &mut usize,
) -> u32
    ensures value { result ≡ line_part_fault day.now k }
    ensures at_after { at.new ≡ part_at day.now k }
    ensures length_after { length.new ≡ part_length day.now k }
    ensures day_after { take length.new (drop at.new day.now) ≡ line_part day.now k }
{
    match check_line_part(day, k) {
        Ok(()) => {
            *at = line_place(day, k);
            *length = LINE_BYTES;
            0
        }
        Err(refusal) => {
            *at = 0;
            *length = 0;
            u32::from(refusal)
        }
    }
}
