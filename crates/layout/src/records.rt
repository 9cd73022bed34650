// The ad hoc records (document 02, F-5): eight words each, a line, a schedule, an order number and five quantities.
ghost use Rattle.std.specs.Prelude.{◌≡◌, ◌+◌, ◌*◌, ◌≤◌, ◌<◌, length};
ghost use Rattle.rules.specs.Layout as layout;

use crate::header::{RECORD_BYTES, record_count, records_at};
use bytes_le::word_at;

// The records that stand from byte `from` of the bytes on.
#[derive(Clone, Copy)]
pub struct Records<'a> {
    pub bytes: &'a [u8],
    pub from: usize,
    pub count: usize,
    ghost whole: { from + 32 * count ≤ length bytes.now },
}

impl<'a> Records<'a> {
    // The records of a day.
    pub fn of(day: &'a [u8]) -> Self
        requires { (64 ≤ length day.now) × (layout.file_length day.now ≤ length day.now) }
        ensures { (result.bytes.now ≡ day.now) × (result.from ≡ layout.records_at day.now) × (result.count ≡ layout.record_count day.now) }
    {
        Records {
            bytes: day,
            from: records_at(day),
            count: record_count(day) as usize,
        }
    }

    // Word j of record i.
    fn word(&self, i: usize, j: usize) -> u32
        requires { (i < self.now.count) × (j < 8) }
        ensures { result ≡ layout.record_word self.now.bytes.now self.now.from i j }
    {
        word_at(self.bytes, self.from + RECORD_BYTES * i + 4 * j)
    }

    pub fn line(&self, i: usize) -> u32
        requires { i < self.now.count }
        ensures { result ≡ layout.record_line self.now.bytes.now self.now.from i }
    {
        self.word(i, 0)
    }

    // From 1.
    pub fn schedule(&self, i: usize) -> u32
        requires { i < self.now.count }
        ensures { result ≡ layout.record_schedule self.now.bytes.now self.now.from i }
    {
        self.word(i, 1)
    }

    pub fn order(&self, i: usize) -> u32
        requires { i < self.now.count }
        ensures { result ≡ layout.record_order self.now.bytes.now self.now.from i }
    {
        self.word(i, 2)
    }

    // Its quantity in interval j.
    pub fn entry(&self, i: usize, j: usize) -> u32
        requires { (i < self.now.count) × (j < 5) }
        ensures { result ≡ layout.record_entry self.now.bytes.now self.now.from i j }
    {
        self.word(i, 3 + j)
    }
}
