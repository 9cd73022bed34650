// The ad hoc records' refusals: 20 and 21 (document 02, F-5).
ghost use Rattle.std.specs.Prelude.{◌≡◌, ◌<◌};
ghost use Rattle.rules.specs.Fold.{first, ◌or_else◌};
ghost use Rattle.rules.specs.Refusals.{record_fault, same_record, twin_fault};
ghost use Rattle.refusals.specs.Numbers.{fault_of};

use layout::records::Records;
use refusals::Refusal;

// Refusal 20 of record i, in a file of n lines.
#[tactic(auto, using(crate::proofs::records::Records::record_tests))]
fn check_record(records: &Records, n: usize, i: usize) -> Result<(), Refusal>
    requires { i < records.now.count }
    ensures { fault_of result ≡ record_fault records.now.bytes.now records.now.from n i }
{
    let schedule = records.schedule(i);
    if n <= records.line(i) as usize || schedule == 0 || 5 < schedule {
        return Err(Refusal::AdHocLineOrSchedule);
    }
    Ok(())
}

// Whether records h and i agree in line, schedule and order number. Word by word: a key of three words with a derived `==` was slower.
#[tactic(auto, unfolding(rules::specs::Refusals::same_record))]
fn same_record(records: &Records, h: usize, i: usize) -> bool
    requires { (i < records.now.count) × (h < i) }
    ensures { result ≡ same_record records.now.bytes.now records.now.from h i }
{
    records.line(h) == records.line(i)
        && records.schedule(h) == records.schedule(i)
        && records.order(h) == records.order(i)
}

// Refusal 21 of record i and those before it. The loop maintains that none before h agrees with record i.
#[tactic(auto, using(crate::proofs::records::Records::twin_laws))]
fn check_twin(records: &Records, i: usize) -> Result<(), Refusal>
    requires { i < records.now.count }
    ensures { fault_of result ≡ twin_fault records.now.bytes.now records.now.from i }
{
    for h in 0..i {
        if same_record(records, h, i) {
            return Err(Refusal::EqualAdHoc);
        }
    }
    Ok(())
}

// Refusals 20 and 21. The loops maintain that no record before i has a fault.
#[tactic(auto, using(crate::proofs::records::Records::part_laws))]
pub fn check_records(records: &Records, n: usize) -> Result<(), Refusal>
    ensures { fault_of result ≡ first (record_fault records.now.bytes.now records.now.from n) records.now.count or_else first (twin_fault records.now.bytes.now records.now.from) records.now.count }
{
    for i in 0..records.count {
        check_record(records, n, i)?;
    }
    for i in 0..records.count {
        check_twin(records, i)?;
    }
    Ok(())
}
