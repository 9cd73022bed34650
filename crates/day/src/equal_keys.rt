// Refusal 14: two lines with the same participant, point and side.
ghost use Rattle.std.specs.Prelude.{◌≡◌, ◌+◌, ◌≤◌, ◌<◌, length};
ghost use Rattle.rules.specs.Fold.{first};
ghost use Rattle.rules.specs.Layout.{line_place};
ghost use Rattle.rules.specs.Refusals.{same_key, key_fault};
ghost use Rattle.refusals.specs.Numbers.{fault_of};
ghost use Rattle.day.specs.Keys.{slot_of};

use layout::fields::{participant, point, side};
use layout::header::{Line, line_of};
use refusals::Refusal;

// Whether two lines have equal participant, point and side. Word by word: a key of three words with a derived `==` was slower.
#[tactic(auto, unfolding(rules::specs::Refusals::same_key))]
fn same_key(v: &Line, w: &Line) -> bool
    ensures { result ≡ same_key v.now w.now }
{
    participant(v) == participant(w) && point(v) == point(w) && side(v) == side(w)
}

// Refusal 14 of line k and those before it. The loop maintains that no line before i has line k's key.
#[tactic(auto, using(crate::proofs::equal_keys::Keys::key_laws))]
fn check_key(day: &[u8], k: usize) -> Result<(), Refusal>
    requires { (64 ≤ length day.now) × (k < 64) × (line_place day.now (k + 1) ≤ length day.now) }
    ensures { fault_of result ≡ key_fault day.now k }
{
    let line = line_of(day, k);
    for i in 0..k {
        if same_key(line_of(day, i), line) {
            return Err(Refusal::EqualKeys);
        }
    }
    Ok(())
}

// One of 128 slots, by a line's participant, point and side: lines with the same key have the same slot.
#[tactic(auto, unfolding(crate::specs::Keys::slot_of))]
fn slot_of(line: &Line) -> usize
    ensures { result ≡ slot_of line.now }
{
    let key = u64::from(participant(line)) * 4
        + u64::from(point(line))
        + u64::from(side(line)) * 64;
    (key % 128) as usize
}

// Refusal 14. The loop maintains that no two lines before k have the same key, and that their slots are marked as used.
#[tactic(auto, using(crate::proofs::equal_keys::Keys::slot_laws))]
pub fn check_keys(day: &[u8], n: usize) -> Result<(), Refusal>
    requires { (64 ≤ length day.now) × (n ≤ 64) × (line_place day.now n ≤ length day.now) }
    ensures { fault_of result ≡ first (key_fault day.now) n }
{
    let mut used = [false; 128];
    for k in 0..n {
        let slot = slot_of(line_of(day, k));
        if used[slot] {
            check_key(day, k)?;
        }
        used[slot] = true;
    }
    Ok(())
}
