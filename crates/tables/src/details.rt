// Row 4: the kind, the detail and the strings of each record.
ghost use Rattle.std.specs.Prelude.{◌≡◌, ℕ};
ghost use Rattle.tables.specs.Record.{size as size_of, words};
ghost use Rattle.tables.specs.Place.{broken};
ghost use Rattle.tables.specs.Kinds.{kind_of};
ghost use Rattle.tables.specs.Details.{of_kind, known_kind, details as details_of, named_count, right_number, known_detail, right_lit, right_words, right_detail, wrong_detail};

use crate::ast::{detail, kind, p, q, size};
use crate::kind::Kind;
use crate::semantic::NONE;

fn known_kind(kind: Kind) -> bool
    ensures { (n : ℕ) → kind ≡ kind_of n → result ≡ known_kind n }
{
    kind != Kind::Unknown
}

// How many details a kind has, if it names any.
fn detail_count(kind: Kind) -> Option<u32>
    ensures { (n : ℕ) → kind ≡ kind_of n → result ≡ named_count (of_kind n details_of 0) }
{
    match kind {
        Kind::Lit => Some(6),
        Kind::Fn => Some(2),
        Kind::Unary => Some(2),
        Kind::Binary => Some(14),
        Kind::TypeCheck => Some(10),
        Kind::Member => Some(14),
        Kind::If => Some(2),
        Kind::Import => Some(4),
        Kind::AssignOp => Some(14),
        Kind::Function => Some(3),
        Kind::Params => Some(2),
        Kind::Left => Some(7),
        Kind::LitPattern => Some(6),
        Kind::TablePattern => Some(2),
        Kind::ListPattern => Some(2),
        Kind::Item => Some(2),
        _ => None,
    }
}

// Detail d of kind k, of which there are so many. A Member's details are 0 to 5 and, if safe, 8 to 13.
fn right_number(k: Kind, d: u32, count: Option<u32>) -> bool
    ensures { (j n : ℕ) → k ≡ kind_of j → count ≡ named_count n → result ≡ right_number j d n }
{
    count.is_none_or(|n| d < n && !(k == Kind::Member && matches!(d, 6 | 7)))
}

fn known_detail(recs: &[u32], r: usize) -> bool
    ensures { result ≡ known_detail (words recs.now r) }
{
    let k = kind(recs, r);
    right_number(k, detail(recs, r), detail_count(k))
}

// A Bool is 0 or 1; Str and Bytes are one of n strings.
fn right_lit(recs: &[u32], n: usize, r: usize) -> bool
    ensures { result ≡ right_lit n (words recs.now r) }
{
    let x = p(recs, r);
    match detail(recs, r) {
        1 => x < 2,
        4 | 5 => (x as usize) < n,
        _ => true,
    }
}

fn right_words(recs: &[u32], n: usize, r: usize) -> bool
    ensures { result ≡ right_words n (words recs.now r) }
{
    let name = q(recs, r);
    match kind(recs, r) {
        Kind::Lit | Kind::LitPattern => right_lit(recs, n, r),
        Kind::Ident | Kind::Import | Kind::IdentPattern => (name as usize) < n,
        Kind::Effect => (p(recs, r) as usize) < n,
        Kind::Function => name == NONE || (name as usize) < n,
        _ => true,
    }
}

#[tactic(auto, unfolding(crate::specs::Details::right_detail))]
fn right_detail(recs: &[u32], n: usize, r: usize) -> bool
    ensures { result ≡ right_detail n (words recs.now r) }
{
    known_kind(kind(recs, r)) && known_detail(recs, r) && right_words(recs, n, r)
}

// The first record of an unknown kind or detail, with a string out of range, or with a Bool other than 0 and 1.
pub fn details(recs: &[u32], strings: usize) -> Option<usize>
    ensures { result ≡ broken (wrong_detail recs.now strings) (size_of recs.now) }
{
    (0..size(recs)).find(|&r| !right_detail(recs, strings, r))
}
