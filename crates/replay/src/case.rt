// A case in words: first its numbers, of which the first seven are the lengths of tables 1 to 7, then the words of these tables.
ghost use Rattle.std.specs.Prelude.{◌≡◌, true, ◌+◌, ◌<◌, min, length, get_or, take, drop, is_some, IfOk, IfSome, ◌≤◌};
ghost use Rattle.std.specs.Option.{SomeIff};
ghost use Rattle.std.specs.Iterator.{at_most};
ghost use Rattle.replay.specs.Case.{start as start_of, table as table_of, are_bytes, laid};
ghost use Rattle.replay.specs.Cases.{Next};

use std::alloc::{AllocError, Global};
use tables::lent::Tables;
use tables::semantic::entry;
use tables::slices::{front, rest};

// A case has so many tables.
const TABLES: usize = 7;

// The words from a case's first one on, and how many numbers it has.
#[derive(Clone, Copy)]
pub struct Case<'a> {
    pub words: &'a [u32],
    pub numbers: usize,
}

impl<'a> Case<'a> {
    // Number i, 0 where there is none.
    pub fn number(self, i: usize) -> usize
        ensures answer { result ≡ get_or self.entry.words.now i 0 }
        ensures word { result < 4294967296 }
    {
        entry(self.words, i) as usize
    }

    // Where table k + 1 begins, at most one past the words' end. Table 8 would be the next case.
    pub fn start(self, k: usize) -> usize
        ensures { result ≡ min (start_of self.entry.words.now self.entry.numbers k) (length self.entry.words.now + 1) }
    {
        let end = self.words.len() + 1;
        let mut at = end.min(self.numbers);
        for j in 0..k {
            at = end.min(at + self.number(j));
        }
        at
    }

    // Table k + 1.
    pub fn table(self, k: usize) -> &'a [u32]
        ensures { result.now ≡ table_of self.entry.words.now self.entry.numbers k }
    {
        front(rest(self.words, self.start(k)), self.number(k))
    }

    // Tables 1 to 7, with these bytes for table 2, whose words are no bytes yet.
    pub fn tables(self, bytes: &'a [u8]) -> Tables<'a>
        ensures strings { result.strings.now ≡ table_of self.entry.words.now self.entry.numbers 0 }
        ensures bytes { result.bytes.now ≡ bytes.now }
        ensures symbols { result.symbols.now ≡ table_of self.entry.words.now self.entry.numbers 2 }
        ensures references { result.references.now ≡ table_of self.entry.words.now self.entry.numbers 3 }
        ensures functions { result.functions.now ≡ table_of self.entry.words.now self.entry.numbers 4 }
        ensures members { result.members.now ≡ table_of self.entry.words.now self.entry.numbers 5 }
        ensures records { result.records.now ≡ table_of self.entry.words.now self.entry.numbers 6 }
    {
        Tables {
            strings: self.table(0),
            bytes,
            symbols: self.table(2),
            references: self.table(3),
            functions: self.table(4),
            members: self.table(5),
            records: self.table(6),
        }
    }
}

// The cases that stand one behind the other in words.
#[derive(Drop)]
pub struct Cases<'a> {
    words: &'a [u32],
    numbers: usize,
}

impl<'a> Cases<'a> {
    pub fn new(words: &'a [u32], numbers: usize) -> Self
        ensures words { result.words.now ≡ words.now }
        ensures numbers { result.numbers ≡ numbers }
    {
        Cases { words, numbers }
    }
}

// The last one is none where it is not whole.
impl<'a> Iterator for Cases<'a> {
    type Item = Option<Case<'a>>;

    ghost remaining = { λ s. at_most (length s.words.now) };

    ghost next_gives = { Next };

    fn next(&mut self) -> Option<Option<Case<'a>>> {
        if self.words.is_empty() {
            return None;
        }
        let case = Case {
            words: self.words,
            numbers: self.numbers,
        };
        let end = case.start(TABLES);
        self.words = rest(self.words, end.max(1));
        Some((end <= case.words.len()).then_some(case))
    }
}

// A word as a byte, where it is one.
fn byte(word: u32) -> Option<u8>
    ensures { SomeIff result (word ≤ 255) word }
{
    u8::try_from(word).ok()
}

// The words as bytes, where each is one and there is room; else what is written is free.
pub fn narrow(words: &[u32], bytes: &mut [u8]) -> bool
    ensures answer { result ≡ are_bytes words.now (length bytes.old) }
    ensures written { result ≡ true → bytes.new ≡ laid words.now bytes.old }
{
    if bytes.len() < words.len() {
        return false;
    }
    for (k, &word) in words.iter().enumerate() {
        let Some(value) = byte(word) else {
            return false;
        };
        bytes[k] = value;
    }
    true
}

// The same into memory of their own, where they are no more than there is room for.
pub fn narrowed(alloc: Global, words: &[u32], room: usize) -> Result<Option<Vec<u8>>, AllocError>
    ensures answer { IfOk result (λ bytes. is_some bytes ≡ are_bytes words.now room) }
    ensures written { IfOk result (λ bytes. IfSome bytes (λ b. b.items ≡ words.now)) }
{
    if room < words.len() {
        return Ok(None);
    }
    let mut bytes = vec![in alloc; 0u8; words.len()]?;
    Ok(narrow(words, &mut bytes).then_some(bytes))
}
