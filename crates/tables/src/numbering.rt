// Row 9: functions are numbered in visiting order, and table 5 has each one's parent.
ghost use Rattle.std.specs.Prelude.{◌≡◌, ℕ, ◌<◌, ◌≤◌, get_or, replicate};
ghost use Rattle.tables.specs.Record.{words, size as size_of};
ghost use Rattle.tables.specs.Naming.{Joined};
ghost use Rattle.tables.specs.Kinds.{kind_of};
ghost use Rattle.tables.specs.Scratch.{Handed};
ghost use Rattle.tables.specs.Numbering.{manner as manner_by, numbering as numbering_of};
ghost use Rattle.tables.specs.Counting.{plus as plus_of, own as own_of, shift as shift_of, offset as offset_of, blank, alls, lefts, tally, tally_left, Tallied};
ghost use Rattle.tables.specs.Counting.{start_of, base_down, caller_down, caller_word, wrong};

use crate::kind::Kind;
use crate::semantic::{NONE, entry, pairs};
use crate::{ast, scratch};

// How a record's children are visited.
#[derive(Clone, Copy, Debug, PartialEq, Eq)]
pub enum Manner {
    Stored,
    RightFirst,
    RightThenBack,
}

#[tactic(auto, unfolding(crate::specs::Numbering::manner))]
fn manner_of(kind: Kind) -> Manner
    ensures { (n : ℕ) → kind ≡ kind_of n → result ≡ manner_by n }
{
    match kind {
        Kind::AssignMulti => Manner::RightThenBack,
        Kind::Assign | Kind::AssignUnpack => Manner::RightFirst,
        _ => Manner::Stored,
    }
}

// A sum that stops at 4,096.
fn plus(a: u16, b: u16) -> u16
    ensures { result ≡ plus_of a b }
{
    a.saturating_add(b).min(4096)
}

// 1 for a Function, else 0.
fn own(recs: &[u32], r: usize) -> u16
    ensures { result ≡ own_of (words recs.now r) }
{
    u16::from(ast::kind(recs, r) == Kind::Function)
}

// The Functions of a forest, and those in its Lefts.
#[derive(Clone, Copy)]
struct Count {
    all: u16,
    left: u16,
}

// How many functions are visited before a record, since its parent: by the counts of all its siblings, from it on, and after it.
fn shift(manner: Manner, is_left: bool, siblings: Count, rest: Count, later: Count) -> u16
    ensures { result ≡ shift_of manner is_left siblings.all siblings.left rest.all rest.left later.left }
{
    let right = siblings.all.saturating_sub(siblings.left);
    match manner {
        Manner::Stored => siblings.all.saturating_sub(rest.all),
        Manner::RightFirst if is_left => plus(right, siblings.left.saturating_sub(rest.left)),
        Manner::RightThenBack if is_left => plus(right, later.left),
        _ => right.saturating_sub(rest.all.saturating_sub(rest.left)),
    }
}

// The Functions of each record's forest: in the record, below it, and in its later siblings. And the same in Lefts alone.
fn tallied(recs: &[u32], counts: &mut [Count; 4096])
    requires small { size_of recs.now ≤ 4096 }
    requires blank { counts.old ≡ replicate 4096 blank }
    ensures all { Tallied tally recs.now (alls counts.new) }
    ensures left { Tallied tally_left recs.now (lefts counts.new) }
{
    for r in (1..ast::size(recs)).rev() {
        let later = counts[ast::next(recs, r)];
        let whole = plus(own(recs, r), counts[ast::first(recs, r)].all);
        counts[r] = Count {
            all: plus(whole, later.all),
            left: if ast::kind(recs, r) == Kind::Left {
                plus(whole, later.left)
            } else {
                later.left
            },
        };
    }
}

// The records with what the first passes leave of each.
#[derive(Clone, Copy)]
struct Counts<'r, 'a> {
    recs: &'r [u32],
    tally: &'a [Count; 4096],
    up: &'a [u16; 4096],
    ghost few: { size_of recs.now ≤ 4096 },
}

impl Counts<'_, '_> {
    // How many functions are visited before record x, since its parent.
    fn offset(&self, x: usize) -> u16
        requires { x < 4096 }
        ensures { let c = self.now in result ≡ offset_of c.recs.now (alls c.tally.now) (lefts c.tally.now) c.up.now x }
    {
        if x == 0 {
            return 0;
        }
        let parent = self.up[x] as usize;
        let manner = manner_of(ast::kind(self.recs, parent));
        let is_left = ast::kind(self.recs, x) == Kind::Left;
        let siblings = self.tally[ast::first(self.recs, parent)];
        let later = self.tally[ast::next(self.recs, x)];
        shift(manner, is_left, siblings, self.tally[x], later)
    }

    // Where each record's siblings begin their numbers, handed down from their parent.
    fn bases(&self) -> [u16; 4096]
        ensures { let c = self.now in Joined c.recs.now
            → Handed (base_down c.recs.now (alls c.tally.now) (lefts c.tally.now) c.up.now)
            c.recs.now 0 (size_of c.recs.now) result }
    {
        scratch::handed_down(self.recs, 0, |r, v| {
            plus(plus(v, self.offset(r)), own(self.recs, r))
        })
    }

    // Where the numbers of record x's functions begin.
    fn start(&self, base: &[u16; 4096], x: usize) -> u16
        requires { x < 4096 }
        ensures { let c = self.now in
            result ≡ start_of c.recs.now (alls c.tally.now) (lefts c.tally.now) c.up.now base.now x }
    {
        plus(base[x], self.offset(x))
    }

    // The function around each record, one more than its number, 0 for none.
    fn callers(&self, base: &[u16; 4096]) -> [u16; 4096]
        ensures { let c = self.now in Joined c.recs.now
            → Handed (caller_down c.recs.now (alls c.tally.now) (lefts c.tally.now) c.up.now base.now)
            c.recs.now 0 (size_of c.recs.now) result }
    {
        scratch::handed_down(self.recs, 0, |r, v| {
            if ast::kind(self.recs, r) == Kind::Function {
                plus(self.start(base, r), 1)
            } else {
                v
            }
        })
    }

    // A Function inside function v with another number or parent.
    fn is_wrong(&self, base: &[u16; 4096], funs: &[u32], r: usize, v: u16) -> bool
        requires { r < 4096 }
        ensures { let c = self.now in result ≡ wrong c.recs.now funs.now r
            (start_of c.recs.now (alls c.tally.now) (lefts c.tally.now) c.up.now base.now r) v }
    {
        if ast::kind(self.recs, r) != Kind::Function {
            return false;
        }
        let start = self.start(base, r) as u32;
        let parent = entry(funs, start as usize * 2);
        ast::p(self.recs, r) != start || parent != caller_word(v)
    }
}

// Table 5's word for the function v, one more than its number, 0 for none.
fn caller_word(v: u16) -> u32
    ensures { result ≡ caller_word v }
{
    u32::from(v).checked_sub(1).unwrap_or(NONE)
}

pub fn numbering(recs: &[u32], funs: &[u32]) -> Option<usize>
    ensures { size_of recs.now ≤ 4096 → Joined recs.now → result ≡ numbering_of recs.now funs.now }
{
    let n = ast::size(recs);
    if 4096 < n {
        return None;
    }
    let mut tally = [Count { all: 0, left: 0 }; 4096];
    tallied(recs, &mut tally);
    let total = plus(own(recs, 0), tally[ast::first(recs, 0)].all);
    if pairs(funs) != total as usize {
        return Some(0);
    }
    let up = scratch::handed_down(recs, 0, |r, _| r as u16);
    let counts = Counts {
        recs,
        tally: &tally,
        up: &up,
    };
    let base = counts.bases();
    let by = counts.callers(&base);
    (0..n).find(|&r| counts.is_wrong(&base, funs, r, by[r]))
}
