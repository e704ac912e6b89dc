// Records as the tree of the Rust's ast/: a record's words and links. Record 0 stands for an absent child or sibling.
ghost use Rattle.std.specs.Prelude.{◌≡◌, ◌<◌, eqb};
ghost use Rattle.tables.specs.Record.{word as word_of, size as size_of};
ghost use Rattle.tables.specs.Forest.{guarded, first as first_of, next as next_of};
ghost use Rattle.tables.specs.Kinds.{kind_of, import_kind_of, function_kind_of};

use crate::kind::{FunctionKind, ImportKind, Kind};

// The number of records, of eight words each. Here and in `link` a shift: listings are printed without dividing.
pub fn size(recs: &[u32]) -> usize
    ensures { result ≡ size_of recs.now }
{
    recs.len() >> 3
}

// Word k of record r, 0 where the table has no such word.
fn word(recs: &[u32], r: usize, k: usize) -> u32
    requires { k < 8 }
    ensures { result ≡ word_of recs.now r k }
{
    if r < recs.len() && r * 8 + k < recs.len() {
        recs[r * 8 + k]
    } else {
        0
    }
}

// The word itself, also of no kind.
pub fn kind_word(recs: &[u32], r: usize) -> u32
    ensures { result ≡ word_of recs.now r 0 }
{
    word(recs, r, 0)
}

pub fn kind(recs: &[u32], r: usize) -> Kind
    ensures { result ≡ kind_of (word_of recs.now r 0) }
{
    Kind::from(kind_word(recs, r))
}

pub fn detail(recs: &[u32], r: usize) -> u32
    ensures { result ≡ word_of recs.now r 1 }
{
    word(recs, r, 1)
}

// A detail that is a flag: whether what stands in brackets is there.
pub fn flag(recs: &[u32], r: usize) -> bool
    ensures { result ≡ eqb (word_of recs.now r 1) 1 }
{
    detail(recs, r) == 1
}

pub fn import_kind(recs: &[u32], r: usize) -> ImportKind
    ensures { result ≡ import_kind_of (word_of recs.now r 1) }
{
    ImportKind::from(detail(recs, r))
}

pub fn function_kind(recs: &[u32], r: usize) -> FunctionKind
    ensures { result ≡ function_kind_of (word_of recs.now r 1) }
{
    FunctionKind::from(detail(recs, r))
}

pub fn p(recs: &[u32], r: usize) -> u32
    ensures { result ≡ word_of recs.now r 2 }
{
    word(recs, r, 2)
}

pub fn q(recs: &[u32], r: usize) -> u32
    ensures { result ≡ word_of recs.now r 3 }
{
    word(recs, r, 3)
}

pub fn start(recs: &[u32], r: usize) -> u32
    ensures { result ≡ word_of recs.now r 4 }
{
    word(recs, r, 4)
}

pub fn end(recs: &[u32], r: usize) -> u32
    ensures { result ≡ word_of recs.now r 5 }
{
    word(recs, r, 5)
}

// The link words as they stand, before they are known to be right.
pub fn first_word(recs: &[u32], r: usize) -> u32
    ensures { result ≡ word_of recs.now r 6 }
{
    word(recs, r, 6)
}

pub fn next_word(recs: &[u32], r: usize) -> u32
    ensures { result ≡ word_of recs.now r 7 }
{
    word(recs, r, 7)
}

// A link of record r: greater than r and below the number of records, else 0.
fn link(recs: &[u32], r: usize, k: usize) -> usize
    requires { k < 8 }
    ensures { result ≡ guarded r (size_of recs.now) (word_of recs.now r k) }
{
    let x = word(recs, r, k) as usize;
    if r < x && x < size(recs) { x } else { 0 }
}

// The first child.
pub fn first(recs: &[u32], r: usize) -> usize
    ensures { result ≡ first_of recs.now r }
{
    link(recs, r, 6)
}

// The next sibling.
pub fn next(recs: &[u32], r: usize) -> usize
    ensures { result ≡ next_of recs.now r }
{
    if r == 0 { 0 } else { link(recs, r, 7) }
}
