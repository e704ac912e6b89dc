// Row 6: the children of each record are those of its kind.
ghost use Rattle.std.specs.Prelude.{◌≡◌, ℕ, [], ◌∷◌, Option};
ghost use Rattle.tables.specs.Record.{size as size_of, words, word};
ghost use Rattle.tables.specs.Place.{broken};
ghost use Rattle.tables.specs.Kinds.{kind_of, import_kind_of};
ghost use Rattle.tables.specs.Children.{belongs as belongs_to, heads as heads_of, from, fits, fits_on, Want, Serves, property as property_of, member as member_of};
ghost use Rattle.tables.specs.Children.{left_property, imported as imported_of, Bracketed, expected, expected_control, expected_store, expected_part};
ghost use Rattle.tables.specs.Children.{rooted as rooted_of, right_children, wrong_children};

use crate::ast::{detail, first, flag, import_kind, kind, next, next_word, p, size};
use crate::detail::{PLAIN, SAFE};
use crate::kind::{ImportKind, Kind};

// What a child may be: an expr, a pattern, or one kind.
#[derive(Clone, Copy, Debug, PartialEq, Eq)]
pub enum Class {
    Expr,
    Pattern,
    Lit,
    Ident,
    Block,
    Function,
    Params,
    Handler,
    Case,
    Left,
    Item,
}

fn belongs(class: Class, kind: Kind) -> bool
    ensures { (n : ℕ) → kind ≡ kind_of n → result ≡ belongs_to class n }
{
    match class {
        Class::Expr => kind.is_expr(),
        Class::Pattern => kind.is_pattern(),
        Class::Lit => kind == Kind::Lit,
        Class::Ident => kind == Kind::Ident,
        Class::Block => kind == Kind::Block,
        Class::Function => kind == Kind::Function,
        Class::Params => kind == Kind::Params,
        Class::Handler => kind == Kind::Handler,
        Class::Case => kind == Kind::Case,
        Class::Left => kind == Kind::Left,
        Class::Item => kind == Kind::Item,
    }
}

// There is a child c, and it is of the class.
fn heads(recs: &[u32], c: usize, class: Class) -> bool
    ensures { result ≡ heads_of class (from recs.now c) }
{
    c != 0 && belongs(class, kind(recs, c))
}

// The functions below go from child c to the one after those that they take, 0 after the last; None where the children don't begin so.
fn one(recs: &[u32], c: usize, class: Class) -> Option<usize>
    ensures { Serves recs.now (Want.times 1 class) c result }
{
    heads(recs, c, class).then(|| next(recs, c))
}

fn times(recs: &[u32], n: u32, c: usize, class: Class) -> Option<usize>
    ensures { Serves recs.now (Want.times n class) c result }
{
    let mut at = c;
    for _ in 0..n {
        at = one(recs, at, class)?;
    }
    Some(at)
}

// Takes all of the class, none too, as do `maybe` and `pairs`: there is always a child after them.
fn any(recs: &[u32], c: usize, class: Class) -> usize
    ensures { Serves recs.now (Want.any class) c (Option.Some result) }
{
    let mut at = c;
    while heads(recs, at, class) {
        at = next(recs, at);
    }
    at
}

fn maybe(recs: &[u32], c: usize, class: Class) -> usize
    ensures { Serves recs.now (Want.maybe class) c (Option.Some result) }
{
    if heads(recs, c, class) {
        return next(recs, c);
    }
    c
}

fn pairs(recs: &[u32], c: usize, key: Class, value: Class) -> usize
    ensures { Serves recs.now (Want.pairs key value) c (Option.Some result) }
{
    let mut at = c;
    while heads(recs, at, key) {
        let other = next(recs, at);
        if !heads(recs, other, value) {
            return at;
        }
        at = next(recs, other);
    }
    at
}

// p of the class.
fn counted(recs: &[u32], r: usize, c: usize, class: Class) -> Option<usize>
    ensures { Serves recs.now (Want.times (word recs.now r 2) class) c result }
{
    times(recs, p(recs, r), c, class)
}

// One more if the detail is 1.
fn bracket(recs: &[u32], r: usize, c: usize, class: Class) -> Option<usize>
    ensures { Bracketed recs.now r (Want.times 1 class) c result }
{
    if flag(recs, r) {
        return one(recs, c, class);
    }
    Some(c)
}

fn both(recs: &[u32], c: usize, left: Class, right: Class) -> Option<usize>
    ensures { fits_on recs.now [] result ≡ fits (Want.times 1 left ∷ Want.times 1 right ∷ []) (from recs.now c) }
{
    one(recs, one(recs, c, left)?, right)
}

// The property of member m.
fn property(recs: &[u32], c: usize, m: u32) -> Option<usize>
    ensures { fits_on recs.now [] result ≡ fits (property_of m) (from recs.now c) }
{
    match m {
        0 => one(recs, c, Class::Expr),
        1 | 2 => one(recs, c, Class::Ident),
        _ => Some(c),
    }
}

// A Member's member, safe or not.
fn member(detail: u32) -> u32
    ensures { result ≡ member_of detail }
{
    detail.checked_sub(SAFE).unwrap_or(detail)
}

fn left_property(recs: &[u32], c: usize, detail: u32) -> Option<usize>
    ensures { fits_on recs.now [] result ≡ fits (left_property detail) (from recs.now c) }
{
    if detail == PLAIN {
        Some(c)
    } else {
        property(recs, c, detail - 1)
    }
}

// What follows an Import's path.
fn imported(recs: &[u32], c: usize, kind: ImportKind) -> Option<usize>
    ensures { (n : ℕ) → kind ≡ import_kind_of n → fits_on recs.now [] result ≡ fits (imported_of n) (from recs.now c) }
{
    match kind {
        ImportKind::WithAlias => one(recs, c, Class::Ident),
        ImportKind::Items => Some(any(recs, c, Class::Item)),
        ImportKind::Simple | ImportKind::Glob => Some(c),
    }
}

// Functions, their parts, and patterns.
fn part_children(recs: &[u32], r: usize, c: usize) -> Option<usize>
    ensures { fits_on recs.now [] result ≡ fits (expected_part (words recs.now r)) (from recs.now c) }
{
    match kind(recs, r) {
        Kind::Function => both(recs, c, Class::Params, Class::Block),
        Kind::Params => Some(any(recs, bracket(recs, r, c, Class::Ident)?, Class::Ident)),
        Kind::Handler => both(
            recs,
            one(recs, c, Class::Ident)?,
            Class::Params,
            Class::Block,
        ),
        Kind::Case => one(recs, counted(recs, r, c, Class::Pattern)?, Class::Expr),
        Kind::Left => left_property(recs, one(recs, c, Class::Ident)?, detail(recs, r)),
        Kind::TablePattern => Some(pairs(recs, c, Class::Lit, Class::Pattern)),
        Kind::ListPattern => Some(any(recs, c, Class::Pattern)),
        Kind::Item => bracket(recs, r, one(recs, c, Class::Ident)?, Class::Ident),
        _ => Some(c),
    }
}

// Import and the assignments.
fn store_children(recs: &[u32], r: usize, c: usize) -> Option<usize>
    ensures { fits_on recs.now [] result ≡ fits (expected_store (words recs.now r)) (from recs.now c) }
{
    match kind(recs, r) {
        Kind::Import => imported(
            recs,
            counted(recs, r, c, Class::Ident)?,
            import_kind(recs, r),
        ),
        Kind::GloAssign => both(recs, c, Class::Ident, Class::Expr),
        Kind::Assign => both(recs, c, Class::Left, Class::Expr),
        Kind::AssignOp => both(recs, c, Class::Left, Class::Expr),
        Kind::AssignUnpack => one(recs, counted(recs, r, c, Class::Left)?, Class::Expr),
        Kind::AssignMulti => Some(any(recs, counted(recs, r, c, Class::Left)?, Class::Expr)),
        _ => part_children(recs, r, c),
    }
}

// Call, Match and what changes the flow of control.
fn control_children(recs: &[u32], r: usize, c: usize) -> Option<usize>
    ensures { fits_on recs.now [] result ≡ fits (expected_control (words recs.now r)) (from recs.now c) }
{
    match kind(recs, r) {
        Kind::Call => {
            let last = any(recs, one(recs, c, Class::Expr)?, Class::Expr);
            Some(any(recs, maybe(recs, last, Class::Function), Class::Handler))
        }
        Kind::If => {
            let block = one(recs, c, Class::Expr)?;
            bracket(recs, r, one(recs, block, Class::Block)?, Class::Expr)
        }
        Kind::Match => Some(any(recs, one(recs, c, Class::Expr)?, Class::Case)),
        Kind::Loop => one(recs, c, Class::Block),
        Kind::While => both(recs, c, Class::Expr, Class::Block),
        Kind::For => both(
            recs,
            counted(recs, r, c, Class::Ident)?,
            Class::Expr,
            Class::Block,
        ),
        Kind::Return => one(recs, c, Class::Expr),
        _ => store_children(recs, r, c),
    }
}

// All kinds: from child c to the one after those of record r's kind.
fn kind_children(recs: &[u32], r: usize, c: usize) -> Option<usize>
    ensures { fits_on recs.now [] result ≡ fits (expected (words recs.now r)) (from recs.now c) }
{
    match kind(recs, r) {
        Kind::Paren | Kind::Unary | Kind::TypeCheck => one(recs, c, Class::Expr),
        Kind::Block | Kind::List => Some(any(recs, c, Class::Expr)),
        Kind::Fn => one(recs, bracket(recs, r, c, Class::Ident)?, Class::Function),
        Kind::Effect => both(recs, c, Class::Ident, Class::Params),
        Kind::Table => Some(pairs(recs, c, Class::Expr, Class::Expr)),
        Kind::Binary => both(recs, c, Class::Expr, Class::Expr),
        Kind::Member => property(recs, one(recs, c, Class::Expr)?, member(detail(recs, r))),
        _ => control_children(recs, r, c),
    }
}

fn rooted(recs: &[u32]) -> bool
    ensures { result ≡ rooted_of recs.now }
{
    kind(recs, 0) == Kind::Function && next_word(recs, 0) == 0
}

fn children_ok(recs: &[u32], r: usize) -> bool
    ensures { result ≡ right_children recs.now r }
{
    kind_children(recs, r, first(recs, r)) == Some(0) && (r != 0 || rooted(recs))
}

// The first record whose children are not those of its kind; record 0 is a Function and has no sibling.
pub fn children(recs: &[u32]) -> Option<usize>
    ensures { result ≡ broken (wrong_children recs.now) (size_of recs.now) }
{
    (0..size(recs)).find(|&r| !children_ok(recs, r))
}
