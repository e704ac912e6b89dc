// Constants added one after the other; the answers and the words are those that document 01 and readings 20 and 21 give.
#![tactic(auto)]

use pool::consts::{ConstWords, add_const, start_consts};
use pool::value::{ConstValue, LitKind};
use std::io;

// Effects 3 and 13 and Handler 20 are one; 8 differs in the variadic only, 26 in a parameter, 30 in the name.
const RECORDS: [u32; 280] = [
    30, 0, 0, 4294967295, 0, 0, 1, 0, 31, 0, 0, 0, 0, 0, 0, 2, 4, 0, 0, 0, 0, 0, 3, 0, 6, 0, 5, 0,
    0, 0, 4, 8, 2, 0, 0, 5, 0, 0, 0, 5, 31, 0, 0, 0, 0, 0, 6, 0, 2, 0, 0, 7, 0, 0, 0, 7, 2, 0, 0,
    8, 0, 0, 0, 0, 6, 0, 5, 0, 0, 0, 9, 13, 2, 0, 0, 5, 0, 0, 0, 10, 31, 1, 0, 0, 0, 0, 11, 0, 2,
    0, 0, 7, 0, 0, 0, 12, 2, 0, 0, 8, 0, 0, 0, 0, 6, 0, 5, 0, 0, 0, 14, 18, 2, 0, 0, 5, 0, 0, 0,
    15, 31, 0, 0, 0, 0, 0, 16, 0, 2, 0, 0, 7, 0, 0, 0, 17, 2, 0, 0, 8, 0, 0, 0, 0, 13, 0, 0, 0, 0,
    0, 19, 26, 1, 0, 0, 0, 0, 0, 0, 20, 32, 0, 0, 0, 0, 0, 21, 0, 2, 0, 0, 5, 0, 0, 0, 22, 31, 0,
    0, 0, 0, 0, 23, 25, 2, 0, 0, 7, 0, 0, 0, 24, 2, 0, 0, 8, 0, 0, 0, 0, 4, 0, 0, 0, 0, 0, 0, 0, 6,
    0, 5, 0, 0, 0, 27, 30, 2, 0, 0, 5, 0, 0, 0, 28, 31, 0, 0, 0, 0, 0, 29, 0, 2, 0, 0, 7, 0, 0, 0,
    0, 6, 0, 6, 0, 0, 0, 31, 0, 2, 0, 0, 6, 0, 0, 0, 32, 31, 0, 0, 0, 0, 0, 33, 0, 2, 0, 0, 7, 0,
    0, 0, 34, 2, 0, 0, 8, 0, 0, 0, 0,
];

// Constants one after the other, and how many there are.
#[derive(Drop)]
struct Consts<'a> {
    words: &'a mut [u32],
    count: usize,
}

impl<'a> Consts<'a> {
    // Adds a constant and writes where it stands.
    fn add_words(&mut self, rt: &impl Print, words: ConstWords) -> io::Result<()> {
        let records = RECORDS;
        let added = add_const(&records, self.words, self.count, words);
        let index = added.index;
        let count = added.count;
        if added.kept {
            self.count = count;
            println!(rt; "At {index} {count}")
        } else {
            // a full table has what it had
            println!(rt; "Full {index} {count}")
        }
    }

    fn add(&mut self, rt: &impl Print, kind: u32, low: u32, high: u32) -> io::Result<()> {
        self.add_words(rt, ConstWords { kind, low, high })
    }

    fn lit(&mut self, rt: &impl Print, detail: u32, p: u32, q: u32) -> io::Result<()> {
        let value = ConstValue::from(LitKind { detail, p, q });
        self.add_words(rt, ConstWords::from(value))
    }
}

// Null, Bool with other unused words, Int beside a length.
fn literals(rt: &impl Print, consts: &mut Consts) -> io::Result<()> {
    consts.lit(rt, 0, 5, 0)?;
    consts.lit(rt, 1, 1, 5)?;
    consts.lit(rt, 1, 1, 6)?;
    consts.lit(rt, 1, 0, 0)?;
    consts.lit(rt, 2, 3, 0)?;
    consts.add(rt, 2, 3, 0)?;
    consts.lit(rt, 2, 3, 1)
}

// Floats by their bits.
fn floats(rt: &impl Print, consts: &mut Consts) -> io::Result<()> {
    for high in [0, 2147483648, 2146959360, 2146959360] {
        consts.lit(rt, 3, 0, high)?;
    }
    Ok(())
}

// Str beside Bytes and a member's name.
fn others(rt: &impl Print, consts: &mut Consts) -> io::Result<()> {
    consts.lit(rt, 4, 4, 9)?;
    consts.lit(rt, 5, 4, 9)?;
    consts.add(rt, 4, 4, 0)?;
    consts.add(rt, 6, 4, 0)?;
    consts.add(rt, 8, 0, 0)
}

fn effects(rt: &impl Print, consts: &mut Consts) -> io::Result<()> {
    for record in [3, 8, 13, 20, 26, 30] {
        consts.add(rt, 7, record, 0)?;
    }
    Ok(())
}

// The last two find no room for a new value and an old one in the full table.
fn run(rt: &impl Print, words: &mut [u32]) -> io::Result<()> {
    let count = start_consts(words);
    let mut consts = Consts { words, count };
    literals(rt, &mut consts)?;
    floats(rt, &mut consts)?;
    others(rt, &mut consts)?;
    effects(rt, &mut consts)?;
    consts.lit(rt, 2, 9, 0)?;
    consts.lit(rt, 2, 3, 1)
}

fn replay(rt: &impl Print) -> io::Result<()> {
    // the words past the lent ones stay
    let mut words = [77u32; 51];
    run(rt, &mut words[..48])?;
    for word in &words {
        println!(rt; "{word}")?;
    }
    let mut none = Consts {
        words: &mut [],
        count: 1,
    };
    none.lit(rt, 2, 9, 0)
}

fn main(rt: HostRuntime) {
    // a writing that fails is passed over
    let _ = replay(&rt);
}
