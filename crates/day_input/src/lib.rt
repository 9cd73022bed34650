// A day on a stream that goes on after its first bytes, which fill a buffer of 65,536: no accepted day is as long, but the number of
// a longer one depends on its length.

#![tactic(auto)]

ghost use Rattle.std.specs.Prelude.{◌≡◌, ℕ, false, ◌≤◌, ◌<◌, List, length, Ok, IfOk, OnOk};
ghost use Rattle.std.specs.Io.KnownBytes.{Appends, IsAtEnd};
ghost use Rattle.day_input.specs.Stream.{Passes, Counted, LongTold, RefusesLong, Answered};

use std::io;
use std::io::{Read, Write};
use streams::read_full;
use text_long::put_long;

// How many bytes the next read gives, which are not kept.
fn next<R: Read>(input: &mut R) -> io::Result<usize>
    ensures most { IfOk result (λ n. n ≤ 4096) }
    ensures passed { IfOk result (λ n. Passes (R.remaining input.old) (R.remaining input.new) n) }
    ensures end { IfOk result (λ n. n < 4096 → IsAtEnd (R.remaining input.new)) }
{
    let mut space = [0u8; 4096];
    read_full(input, &mut space)
}

// How many bytes are left on the stream, counted up to 2^44: no header says as many. The loop maintains that they are 4,096 for each
// turn.
fn rest<R: Read>(input: &mut R) -> io::Result<usize>
    ensures upper_bound { IfOk result (λ n. n ≤ 17592186044416) }
    ensures counted { IfOk result (λ n. Counted (R.remaining input.old) n) }
{
    let mut total: usize = 0;
    for turns in 0..4294967296u64 {
        let n = next(input)?;
        total += n;
        if n < 4096 {
            return Ok(total);
        }
    }
    Ok(total)
}

// The same after a first read of `n` bytes: where that did not fill its buffer, the input has ended.
fn left<R: Read>(input: &mut R, n: usize) -> io::Result<usize>
    ensures upper_bound { IfOk result (λ m. m ≤ 17592186044416) }
    ensures value { IfOk result (λ m. n < 65536 → m ≡ 0) }
    ensures unread { n < 65536 → result ≡ Ok 0 }
    ensures counted { IfOk result (λ m. 65536 ≤ n → Counted (R.remaining input.old) m) }
{
    if n < 65536 {
        return Ok(0);
    }
    rest(input)
}

// Whether the day goes on after the `n` bytes that were read: then it is refused, and the refusal is written.
pub fn refused_long<R: Read, W: Write>(
    input: &mut R,
    output: &mut W,
    buffer: &[u8],
    n: usize,
) -> io::Result<bool>
    requires { (65536 ≤ length buffer.now) × (n ≤ 65536) }
    ensures short { IfOk result (λ more. n < 65536 → more ≡ false) }
    ensures unread { n < 65536 → result ≡ Ok false }
    ensures kept { IfOk result (λ more. more ≡ false → output.new ≡ output.old) }
    ensures told { IfOk result (λ more. LongTold more buffer.now n (R.remaining input.old) (W.contents output.old) (W.contents output.new)) }
{
    let more = left(input, n)?;
    if more == 0 {
        return Ok(false);
    }
    let mut out = [0u8; 32];
    let end = put_long(&mut out, buffer, n + more);
    output.write_all(&out[..end])?;
    Ok(true)
}

// What a program prints for a day.
pub trait DayText {
    // The bytes of it.
    ghost text: { List ℕ → List ℕ };

    ghost long: { RefusesLong text };

    fn print<W: Write>(output: &mut W, day: &[u8]) -> io::Result<()>
        ensures { OnOk result (Appends (W.contents output.old) (W.contents output.new) (text day.now)) };
}

// Reads a day to its end and writes its answer.
pub fn answer<T: DayText, R: Read, W: Write>(input: &mut R, output: &mut W) -> io::Result<()>
    ensures { OnOk result (Answered T.text (R.remaining input.old) (W.contents output.old) (W.contents output.new)) }
{
    let mut buffer = [0u8; 65536];
    let n = read_full(input, &mut buffer)?;
    if refused_long(input, output, &buffer, n)? {
        return Ok(());
    }
    T::print(output, &buffer[..n])
}
