// genlist's text read into tables 1 to 7 (document 01, 'The listing program'; readings 27, 28 and 38).
ghost use Rattle.std.specs.Prelude.{◌≡◌, ℕ, Bool, true, false, ◌+◌, ◌-◌, ◌≤◌, ◌<◌, ◌^◌, length, IfSome, IfErr, OnOk};
ghost use Rattle.listing.specs.Lines.{lines_of, Took, Over};
ghost use Rattle.listing.specs.Read.{decimal_of, nibble_of, pair_of, gap, Stored, Kept};
ghost use Rattle.listing.specs.Text.{Tables, rows_of, table_of, strings_of, string_table, ended, read_of, rooms_of, reading_of, words, Holds, Stays, SameSlices};
ghost use Rattle.listing.specs.Places.{Listed, Texted, Entered, SameBuffers, held_after, outcome_of};

use crate::lines::{Lines, run};

const BYTES: usize = 4096;

const STRINGS: usize = 280;

// How many words of each table were read, and how many bytes.
#[derive(Clone, Copy, Debug, PartialEq, Eq)]
pub struct Sizes {
    pub strings: usize,
    pub bytes: usize,
    pub symbols: usize,
    pub references: usize,
    pub functions: usize,
    pub members: usize,
    pub records: usize,
}

// The number of a line that can't be read.
#[derive(Clone, Copy, Debug, PartialEq, Eq)]
pub struct UnreadLine {
    pub line: usize,
}

// A table's entries: how many values each has, how many words they are at most, and whether the end of the text may end them.
#[derive(Clone, Copy)]
struct Shape {
    count: usize,
    most: usize,
    last: bool,
}

const PAIRS: Shape = Shape {
    count: 2,
    most: 280,
    last: false,
};

const WORDS: Shape = Shape {
    count: 1,
    most: 140,
    last: false,
};

const RECORDS: Shape = Shape {
    count: 8,
    most: 1120,
    last: true,
};

// How much of table 1 was read, and how many bytes of its strings.
#[derive(Clone, Copy)]
struct Texts {
    used: usize,
    held: usize,
}

pub fn decimal(digits: &[u8]) -> Option<u32>
    ensures { result ≡ decimal_of digits.now }
{
    if digits.is_empty() {
        return None;
    }
    let mut value: u32 = 0;
    for &b in digits {
        let digit = (b as char).to_digit(10)?;
        value = value.checked_mul(10)?.checked_add(digit)?;
    }
    Some(value)
}

// The value of a hexadecimal digit.
#[tactic(auto, using(std::proofs::lemmas::Bool::Decides::nat_tests), unfolding(crate::specs::Read::nibble_of))]
pub fn nibble(b: u8) -> Option<u8>
    ensures value { result ≡ nibble_of b }
    ensures bound { IfSome result (λ d. d < 16) }
{
    Some((b as char).to_digit(16)? as u8)
}

pub fn pair(high: u8, low: u8) -> Option<u8>
    ensures { result ≡ pair_of high low }
{
    Some(nibble(high)? * 16 + nibble(low)?)
}

// How many spaces stand before value k: none before the first.
fn gap(line: &[u8], k: usize) -> usize
    ensures value { result ≡ gap k line.now }
    ensures bound { result ≤ length line.now }
{
    if k == 0 {
        return 0;
    }
    run(line, |b| b == b' ')
}

// A line of as many values as there is room for.
fn values(line: &[u8], out: &mut [u32]) -> Option<()>
    ensures { Stored line.now out.new result }
{
    let mut rest = line;
    for (k, value) in out.iter_mut().enumerate() {
        let (_, field) = rest.split_at(gap(rest, k));
        let (digits, after) = field.split_at(run(field, |b| b.is_ascii_digit()));
        *value = decimal(digits)?;
        rest = after;
    }
    rest.is_empty().then_some(())
}

// A string's bytes, and how many they are.
fn hexadecimal(line: &[u8], out: &mut [u8]) -> Option<usize>
    ensures { Kept line.now out.old out.new result }
{
    if line == b"-".as_slice() {
        return Some(0);
    }
    for (k, digits) in line.chunks(2).enumerate() {
        let [high, low] = digits else {
            return None;
        };
        let byte = pair(*high, *low)?;
        if out.len() <= k {
            return None;
        }
        out[k] = byte;
    }
    // By a shift: outside the generator's call nothing divides.
    Some(line.len() >> 1)
}

// Table 1 as far as it was read: its words, and the bytes of its strings.
#[derive(Drop)]
struct Strings<'a> {
    words: &'a mut [u32],
    used: usize,
    bytes: &'a mut [u8],
    held: usize,
}

impl Strings<'_> {
    // One string: its offset and length in table 1, its bytes in table 2.
    fn add(&mut self, line: &[u8]) -> Option<()>
        requires words { self.old.used ≤ length self.old.words.now }
        requires bytes { self.old.held ≤ length self.old.bytes.now }
        ensures entered { Entered line.now self.old.words.now self.old.used self.old.bytes.now self.old.held
            self.new.words.now self.new.bytes.now (held_after self.new.held result) }
        ensures used { IfSome result (λ _. self.new.used ≡ self.old.used + 2) }
        ensures same { SameBuffers self.old self.new }
    {
        let used = self.used;
        let held = self.held;
        if self.words.len() - used < 2 {
            return None;
        }
        let count = hexadecimal(line, &mut self.bytes[held..])?;
        let end = held + count;
        if BYTES < end {
            return None;
        }
        self.words[used] = held as u32;
        self.words[used + 1] = count as u32;
        self.used = used + 2;
        self.held = end;
        Some(())
    }
}

// Table 1's lines, of at most 140 strings.
fn string_lines(
    lines: &mut Lines,
    strings: &mut [u32],
    bytes: &mut [u8],
) -> Result<Texts, UnreadLine>
    ensures { Texted (strings_of (length strings.old) (length bytes.old) lines.old.number 0 0 (lines_of lines.old.rest.now))
        strings.old bytes.old strings.new bytes.new lines.new.rest.now lines.new.number result }
{
    let mut table = Strings {
        words: &mut *strings,
        used: 0,
        bytes: &mut *bytes,
        held: 0,
    };
    while let Some(line) = lines.next_line() {
        let unread = UnreadLine { line: line.number };
        if line.bytes.is_empty() {
            return Ok(Texts {
                used: table.used,
                held: table.held,
            });
        }
        if STRINGS <= table.used {
            return Err(unread);
        }
        table.add(line.bytes).ok_or(unread)?;
    }
    Err(UnreadLine { line: lines.number })
}

// A table's lines of values.
fn rows(lines: &mut Lines, shape: Shape, out: &mut [u32]) -> Result<usize, UnreadLine>
    ensures { Listed (rows_of shape.count shape.most (length out.old) shape.last lines.old.number 0 (lines_of lines.old.rest.now))
        out.old out.new lines.new.rest.now lines.new.number result }
{
    let mut used: usize = 0;
    while let Some(line) = lines.next_line() {
        let unread = UnreadLine { line: line.number };
        if line.bytes.is_empty() {
            return Ok(used);
        }
        if shape.most <= used || out.len() - used < shape.count {
            return Err(unread);
        }
        let end = used + shape.count;
        values(line.bytes, &mut out[used..end]).ok_or(unread)?;
        used = end;
    }
    let over = UnreadLine { line: lines.number };
    shape.last.then_some(used).ok_or(over)
}

// Before a table's lines stands a line of names, which is any line.
fn names(lines: &mut Lines) -> Result<(), UnreadLine>
    ensures over { IfErr result (λ unread. Over lines.old.rest.now lines.old.number lines.new.rest.now unread.line) }
    ensures line { OnOk result ((line : _) × Took lines.old.rest.now lines.old.number line lines.new.rest.now lines.new.number) }
{
    let unread = UnreadLine { line: lines.number };
    lines.next_line().ok_or(unread)?;
    Ok(())
}

fn text_table(lines: &mut Lines, strings: &mut [u32], bytes: &mut [u8]) -> Result<Texts, UnreadLine>
    ensures { Texted (string_table (length strings.old) (length bytes.old) (lines_of lines.old.rest.now) lines.old.number)
        strings.old bytes.old strings.new bytes.new lines.new.rest.now lines.new.number result }
{
    names(lines)?;
    string_lines(lines, strings, bytes)
}

fn table(lines: &mut Lines, shape: Shape, out: &mut [u32]) -> Result<usize, UnreadLine>
    ensures { Listed (table_of shape.count shape.most (length out.old) shape.last (lines_of lines.old.rest.now) lines.old.number)
        out.old out.new lines.new.rest.now lines.new.number result }
{
    names(lines)?;
    rows(lines, shape, out)
}

// After table 7 only blank lines may stand.
fn blank(lines: &Lines) -> Result<(), UnreadLine>
    ensures { (t : Tables) → ended t (lines_of lines.now.rest.now) lines.now.number ≡ outcome_of t result }
{
    let feeds = run(lines.rest, |b| b == b'\n');
    if feeds < lines.rest.len() {
        return Err(UnreadLine {
            line: lines.number + feeds,
        });
    }
    Ok(())
}

// What is lent for the tables.
#[derive(Drop)]
pub struct Lent<'a> {
    pub strings: &'a mut [u32],
    pub bytes: &'a mut [u8],
    pub symbols: &'a mut [u32],
    pub references: &'a mut [u32],
    pub functions: &'a mut [u32],
    pub members: &'a mut [u32],
    pub records: &'a mut [u32],
}

pub fn read(text: &[u8], lent: &mut Lent) -> Result<Sizes, UnreadLine>
    ensures answer { result ≡ reading_of (read_of (rooms_of (words lent.old)) text.now) }
    ensures tables { Holds (read_of (rooms_of (words lent.old)) text.now) (words lent.new) }
    ensures rest { Stays (read_of (rooms_of (words lent.old)) text.now) (words lent.old) (words lent.new) }
    ensures same { SameSlices lent.old lent.new }
{
    let mut lines = Lines {
        rest: text,
        number: 1,
    };
    let texts = text_table(&mut lines, lent.strings, lent.bytes)?;
    let sizes = Sizes {
        strings: texts.used,
        bytes: texts.held,
        symbols: table(&mut lines, PAIRS, lent.symbols)?,
        references: table(&mut lines, WORDS, lent.references)?,
        functions: table(&mut lines, PAIRS, lent.functions)?,
        members: table(&mut lines, WORDS, lent.members)?,
        records: table(&mut lines, RECORDS, lent.records)?,
    };
    blank(&lines)?;
    Ok(sizes)
}
