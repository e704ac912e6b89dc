// The constants of one function: a searched table in lent words, three to an entry. The Rust's add_const and its table of ConstValues.
ghost use Rattle.std.specs.Prelude.{◌≡◌};
ghost use Rattle.pool.specs.Value.{same, found};
ghost use Rattle.pool.specs.Consts.{words_at, constant, entry as entry_of, table, room, put3, added, written};

use crate::effect::same_effect;
use crate::entries::put;
use crate::value::ConstValue;
use tables::semantic::entry;

// The kind of a constant that a record brings.
pub const EFFECT: u32 = 7;

// A constant's three words.
#[derive(Clone, Copy, Debug, PartialEq, Eq)]
pub struct ConstWords {
    pub kind: u32,
    pub low: u32,
    pub high: u32,
}

// Where a constant stands, and how many the table then counts. A new one for which the lent words have no room is counted, and not kept.
#[derive(Clone, Copy, Debug, PartialEq, Eq)]
pub struct Added {
    pub index: usize,
    pub count: usize,
    pub kept: bool,
}

// The words of entry i, 0 where the lent words end before them.
fn words_at(consts: &[u32], i: usize) -> ConstWords
    ensures { result ≡ words_at consts.now i }
{
    let at = i.saturating_mul(3);
    ConstWords {
        kind: entry(consts, at),
        low: entry(consts, at.saturating_add(1)),
        high: entry(consts, at.saturating_add(2)),
    }
}

// Whether two constants, by their words, are equal.
#[tactic(auto, using(crate::proofs::WordLaws::both_effects, crate::proofs::WordLaws::by_words))]
fn same_words(records: &[u32], a: ConstWords, b: ConstWords) -> bool
    ensures { result ≡ same (constant records.now a).value (constant records.now b).value }
{
    if a.kind == EFFECT && b.kind == EFFECT {
        return same_effect(records, a.low as usize, b.low as usize);
    }
    a == b
}

// Whether entry i equals the constant of these words.
pub fn same_const(records: &[u32], consts: &[u32], i: usize, words: ConstWords) -> bool
    ensures { result ≡ same (entry_of records.now consts.now i).value (constant records.now words).value }
{
    same_words(records, words_at(consts, i), words)
}

// The first of n entries that equals the constant of these words.
pub fn find_const(records: &[u32], consts: &[u32], n: usize, words: ConstWords) -> Option<usize>
    ensures { result ≡ found (table records.now consts.now n) (constant records.now words).value }
{
    // past the lent words all entries are alike
    (0..n.min(consts.len() + 1)).find(|&i| same_const(records, consts, i, words))
}

// Entry n becomes these words; answers whether there was room for them.
fn put_const(consts: &mut [u32], n: usize, words: ConstWords) -> bool
    ensures room { result ≡ room consts.old n }
    ensures words { consts.new ≡ put3 consts.old n words.kind words.low words.high }
{
    put(consts, n, [words.kind, words.low, words.high])
}

// Constants start with Null.
pub fn start_consts(consts: &mut [u32]) -> usize
    ensures count { result ≡ 1 }
    ensures words { consts.new ≡ put3 consts.old 0 0 0 0 }
{
    put_const(consts, 0, ConstWords::from(ConstValue::Null));
    1
}

// An equal value's index, or the next one, where the value is then written if there is room.
#[tactic(auto, using(crate::proofs::ConstsLaws::added_old, crate::proofs::ConstsLaws::added_new, crate::proofs::TableLaws::table_length))]
pub fn add_const(records: &[u32], consts: &mut [u32], n: usize, words: ConstWords) -> Added
    ensures answer { result ≡ added (table records.now consts.old n) (room consts.old n) (constant records.now words) }
    ensures words { consts.new ≡ written records.now consts.old n words.kind words.low words.high }
{
    match find_const(records, consts, n, words) {
        Some(index) => Added {
            index,
            count: n,
            kept: true,
        },
        None => Added {
            index: n,
            count: n.saturating_add(1),
            kept: put_const(consts, n, words),
        },
    }
}
