// The header's words, the layout that they name (document 02, F-5), and the bytes of a line.
ghost use Rattle.std.specs.Prelude.{◌≡◌, ◌+◌, ◌*◌, ◌≤◌, ◌<◌, length};
ghost use Rattle.rules.specs.Layout as layout;

use bytes_le::word_at;

// The least length of a day file that has a header to read.
pub const HEADER_BYTES: usize = 64;

// Where the market table stands in the old layout, by which the header names it.
const OLD_MARKET_AT: usize = 16;

pub const LINE_BYTES: usize = 660;

// The bytes of a line.
pub type Line = [u8; LINE_BYTES];

pub const RECORD_BYTES: usize = 32;

pub const MOST_LINES: usize = 64;

pub const MOST_RECORDS: u32 = 64;

// The word that counts the lines.
pub fn count_word(day: &[u8]) -> u32
    requires { 4 ≤ length day.now }
    ensures { result ≡ layout.line_count day.now }
{
    word_at(day, 0)
}

// How many lines the day has.
pub fn line_count(day: &[u8]) -> usize
    requires { 4 ≤ length day.now }
    ensures { result ≡ layout.line_count day.now }
{
    count_word(day) as usize
}

// Where the header says that the market table stands.
pub fn market_offset(day: &[u8]) -> usize
    requires { 64 ≤ length day.now }
    ensures { result ≡ layout.market_offset day.now }
{
    word_at(day, 4) as usize
}

// Where the header says that the lines stand.
pub fn lines_offset(day: &[u8]) -> usize
    requires { 64 ≤ length day.now }
    ensures { result ≡ layout.lines_offset day.now }
{
    word_at(day, 8) as usize
}

// How long the header says that the file is.
pub fn length_word(day: &[u8]) -> usize
    requires { 64 ≤ length day.now }
    ensures { result ≡ layout.length_word day.now }
{
    word_at(day, 12) as usize
}

// Where the header says that the records stand, in the layout that has them.
pub fn records_offset(day: &[u8]) -> usize
    requires { 64 ≤ length day.now }
    ensures { result ≡ layout.records_offset day.now }
{
    word_at(day, 20) as usize
}

// Whether the file has the layout with ad hoc records.
#[tactic(auto, unfolding(rules::specs::Layout::ad_hoc))]
pub fn ad_hoc(day: &[u8]) -> bool
    requires { 64 ≤ length day.now }
    ensures { result ≡ layout.ad_hoc day.now }
{
    market_offset(day) != OLD_MARKET_AT
}

// Where the market table stands.
#[tactic(auto, unfolding(rules::specs::Layout::market_at))]
pub fn market_at(day: &[u8]) -> usize
    requires { 64 ≤ length day.now }
    ensures { result ≡ layout.market_at day.now }
{
    if ad_hoc(day) { 24 } else { OLD_MARKET_AT }
}

// Where the lines stand.
#[tactic(auto, unfolding(rules::specs::Layout::lines_at))]
pub fn lines_at(day: &[u8]) -> usize
    requires { 64 ≤ length day.now }
    ensures { result ≡ layout.lines_at day.now }
{
    if ad_hoc(day) { 72 } else { 64 }
}

// How many records the day has.
#[tactic(auto, unfolding(rules::specs::Layout::record_count))]
pub fn record_count(day: &[u8]) -> u32
    requires { 64 ≤ length day.now }
    ensures { result ≡ layout.record_count day.now }
{
    if ad_hoc(day) { word_at(day, 16) } else { 0 }
}

// Where line k begins.
#[tactic(auto, using(laws::specs::Layouts::lines_at_lem))]
pub fn line_place(day: &[u8], k: usize) -> usize
    requires { (64 ≤ length day.now) × (k < 4294967296) }
    ensures { result ≡ layout.line_place day.now k }
{
    lines_at(day) + LINE_BYTES * k
}

// Where the records begin: where the lines end.
pub fn records_at(day: &[u8]) -> usize
    requires { 64 ≤ length day.now }
    ensures { result ≡ layout.records_at day.now }
{
    line_place(day, line_count(day))
}

// How long the file is, with its lines and records.
#[tactic(auto, using(laws::specs::Layouts::lines_at_lem))]
pub fn file_length(day: &[u8]) -> usize
    requires { (64 ≤ length day.now) × (layout.line_count day.now ≤ 64) }
    ensures { result ≡ layout.file_length day.now }
{
    records_at(day) + RECORD_BYTES * record_count(day) as usize
}

// The bytes of line k.
#[tactic(auto, using(crate::proofs::header::Lent::lent_line))]
pub fn line_of(day: &[u8], k: usize) -> &Line
    requires { (64 ≤ length day.now) × (k < 64) × (layout.line_place day.now (k + 1) ≤ length day.now) }
    ensures { result.now ≡ layout.line_at day.now k }
{
    let start = line_place(day, k);
    day[start..start + LINE_BYTES].as_array().unwrap()
}
