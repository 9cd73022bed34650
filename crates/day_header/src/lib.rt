// A day file's header and the line part (document 01, refusals 1 to 3 and 16; document 02, F-5, refusal 19).

#![tactic(auto)]

ghost use Rattle.std.specs.Prelude.{◌≡◌, ℕ, ◌≤◌, ◌<◌, List, length};
ghost use Rattle.rules.specs.Refusals.{header_fault_of, header_fault, day_fault, line_part_fault, line_part};
ghost use Rattle.refusals.specs.Numbers.{fault_of};
ghost use Rattle.day_header.specs.Records.{misplaced};
ghost use Rattle.day_header.specs.Long.{Begins};

use layout::header::{
    HEADER_BYTES, LINE_BYTES, MOST_LINES, MOST_RECORDS, ad_hoc, file_length, length_word,
    line_count, line_place, lines_at, lines_offset, market_at, market_offset, record_count,
    records_at, records_offset,
};
use refusals::Refusal;

// Whether the header says of the records another place than theirs.
#[tactic(auto, unfolding(crate::specs::Records::misplaced))]
fn records_misplaced(day: &[u8]) -> bool
    requires { 64 ≤ length day.now }
    ensures { result ≡ misplaced day.now }
{
    ad_hoc(day) && records_offset(day) != records_at(day)
}

// Refusals 2, 3 and 19 of a file of `size` bytes, of which the first are lent.
#[tactic(auto, using(crate::proofs::Header::header_tests))]
fn check_header_of(day: &[u8], size: usize) -> Result<(), Refusal>
    requires { (64 ≤ length day.now) × (64 ≤ size) }
    ensures { fault_of result ≡ header_fault_of day.now size }
{
    let n = line_count(day);
    if n == 0 || MOST_LINES < n {
        return Err(Refusal::LineCount);
    }
    if market_offset(day) != market_at(day)
        || lines_offset(day) != lines_at(day)
        || records_misplaced(day)
    {
        return Err(Refusal::Layout);
    }
    let end = file_length(day);
    if length_word(day) != end || size != end {
        return Err(Refusal::Layout);
    }
    if MOST_RECORDS < record_count(day) {
        return Err(Refusal::AdHocCount);
    }
    Ok(())
}

// Refusals 1 to 3 and 19.
#[tactic(auto, using(crate::proofs::Header::header_tests), unfolding(rules::specs::Refusals::header_fault))]
pub fn check_header(day: &[u8]) -> Result<(), Refusal>
    ensures { fault_of result ≡ header_fault day.now }
{
    if day.len() < HEADER_BYTES {
        return Err(Refusal::FileShort);
    }
    check_header_of(day, day.len())
}

// The refusal of any file of `size` bytes, more than 44,360, which begins with the lent bytes: no accepted one is as long.
pub fn check_long(head: &[u8], size: usize) -> Result<(), Refusal>
    requires { (64 ≤ length head.now) × (44360 < size) }
    ensures { (d : List ℕ) → Begins d head.now → length d ≡ size → fault_of result ≡ day_fault d }
{
    check_header_of(head, size)
}

// The refusal of the line part, for any bytes and any k.
#[tactic(auto, using(crate::proofs::Header::part_laws))]
pub fn check_line_part(day: &[u8], k: usize) -> Result<(), Refusal>
    ensures { fault_of result ≡ line_part_fault day.now k }
{
    check_header(day)?;
    if line_count(day) <= k {
        return Err(Refusal::NoLine);
    }
    Ok(())
}

// The caller's own bytes for line k, as `&day[..]` (document 01), or the empty part where `check_line_part` refuses.
#[tactic(auto, using(crate::proofs::Header::part_laws))]
pub fn line_part(day: &[u8], k: usize) -> &[u8]
    ensures { result.now ≡ line_part day.now k }
{
    match check_line_part(day, k) {
        Ok(()) => {
            let from = line_place(day, k);
            &day[from..from + LINE_BYTES]
        }
        Err(_) => &day[..0],
    }
}
