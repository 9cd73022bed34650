// A pack in a stream: for each entry its length as a word, then its bytes.

#![tactic(auto)]

ghost use Rattle.std.specs.Prelude.{length, option_map, IfOk, OnOk};
ghost use Rattle.std.specs.Fn.{CalledAt};
ghost use Rattle.pack.specs.Entry.{Reads, ShowsEach};

use std::io;
use std::io::Read;
use streams::read_full;

// Reads the next entry into the lent bytes. Answers `None` at the pack's end, at an entry that is broken off, and at one longer than the
// lent bytes.
pub fn read<'a, R: Read>(input: &mut R, space: &'a mut [u8]) -> io::Result<Option<&'a [u8]>>
    ensures { IfOk result (λ r. Reads (length space.old) (R.remaining input.old) (R.remaining input.new) (option_map (λ e. e.now) r)) }
{
    let mut head = [0u8; 4];
    if read_full(input, &mut head)? < head.len() {
        return Ok(None);
    }
    let Some(entry) = space.get_mut(..u32::from_le_bytes(head) as usize) else {
        return Ok(None);
    };
    if read_full(input, entry)? < entry.len() {
        return Ok(None);
    }
    Ok(Some(entry))
}

// Calls `show` with each entry of a pack, which is read into the lent bytes, up to the first that can't be read. A proved loop has to end,
// and nothing says that the input does: the turns are as many as no run uses up. Each takes a word at least, so that known bytes which are
// fewer than 2^64 end before.
pub fn for_each<R: Read, F: FnMut(&[u8]) -> io::Result<()>>(
    input: &mut R,
    space: &mut [u8],
    mut show: F,
) -> io::Result<()>
    requires { F.IsAlwaysCallable show }
    ensures { OnOk result (ShowsEach (CalledAt F.FnMut) (length space.old) show (R.remaining input.old)) }
{
    for turns in 0..u64::MAX {
        let Some(entry) = read(input, space)? else {
            break;
        };
        show(entry)?;
    }
    Ok(())
}
