// The names of all functions and the notes of all records, in one go through the functions: linear in records, members and functions.
ghost use Rattle.std.specs.Prelude.{◌≡◌, ◌≤◌, length};
ghost use Rattle.tables.specs.Record.{words, is_ident};
ghost use Rattle.tables.specs.Scratch.{handed};
ghost use Rattle.tables.specs.Semantic.{pairs as pairs_of, share_start};
ghost use Rattle.pool.specs.Names.{semantic_of};
ghost use Rattle.pool.specs.NameWords.{span_of, under, fits as fits_of};
ghost use Rattle.pool.specs.NameSteps.{parent_owner};
ghost use Rattle.pool.specs.ResolveSteps.{owner_inside, share_from, Passed, Begun, NamesInners, NotesIdents};
ghost use Rattle.pool.specs.Resolve.{Resolves};

use crate::chain::{Chain, OWNERS};
use crate::lookup::Lookup;
use crate::notes::{Notes, note_earlier, note_ident};
use crate::scope::{SYMBOLS, Scope};
use crate::spans::{Span, put_span, span_of};
use tables::ast::{first, kind, next, p, size};
use tables::kind::Kind;
use tables::lent::Tables;
use tables::semantic::{member_count, pairs, parent, share_start};

// The owner of each record.
type Owners = [u16; 4096];

// Puts the owner at record r, where 0 is an absent record.
fn own(owners: &mut Owners, r: usize, owner: u16)
    ensures { length owners.old ≡ 4096 → owners.new ≡ handed owners.old r owner }
{
    if 0 < r && r < 4096 {
        owners[r] = owner;
    }
}

// The owner of what is inside record r: a Function owns its inside.
fn owner_inside(recs: &[u32], r: usize, owner: u16) -> u16
    ensures { result ≡ owner_inside (words recs.now r) owner }
{
    if kind(recs, r) != Kind::Function {
        return owner;
    }
    let f = p(recs, r);
    if f < 256 { f as u16 + 1 } else { 0 }
}

fn is_ident(recs: &[u32], r: usize) -> bool
    ensures { result ≡ is_ident (words recs.now r) }
{
    matches!(kind(recs, r), Kind::Ident | Kind::IdentPattern)
}

// One pass over the records, whose links go forward: each record hands its owner to its links and itself to its later sibling, and an Ident is chained to its owner.
#[tactic(auto, using(crate::proofs::RecordPass::pass_begin, crate::proofs::RecordPass::pass_done))]
fn records(recs: &[u32], notes: &mut Notes, idents: &mut Chain<4096>)
    ensures { Passed recs.now notes.old idents.old notes.new idents.new }
{
    let n = size(recs);
    if 4096 < n {
        return;
    }
    let mut owners = [0u16; 4096];
    for r in 0..n {
        let owner = owners[r];
        let child = first(recs, r);
        let sibling = next(recs, r);
        own(&mut owners, child, owner_inside(recs, r, owner));
        own(&mut owners, sibling, owner);
        note_earlier(notes, sibling, r);
        if is_ident(recs, r) {
            idents.push(owner as usize, r);
        }
    }
}

// The owner of function f: its parent, or none.
fn parent_owner(functions: &[u32], f: usize) -> usize
    ensures { result ≡ parent_owner functions.now f }
{
    let to = parent(functions, f) as usize;
    if to < f { to + 1 } else { 0 }
}

// One pass over the functions: where each one's names begin, and the functions inside each.
#[tactic(auto, using(crate::proofs::FunctionPass::begin_first))]
fn functions_inside(functions: &[u32], spans: &mut [Span], inners: &mut Chain<257>)
    requires few_functions { pairs_of functions.now ≤ 256 }
    requires few_members { share_start functions.now (pairs_of functions.now) ≤ 1024 }
    ensures { Begun functions.now spans.old inners.old spans.new inners.new }
{
    let mut start: u32 = 0;
    for f in 0..pairs(functions) {
        put_span(
            spans,
            f,
            Span {
                start,
                ..Span::default()
            },
        );
        inners.push(parent_owner(functions, f), f + 1);
        start += member_count(functions, f);
    }
}

// The symbols of function f.
fn share_of<'a>(tables: &Tables<'a>, spans: &[Span], f: usize) -> &'a [u32]
    ensures { result.now ≡ share_from tables.now.functions.now tables.now.members.now (span_of spans.now f).start f }
{
    let from = span_of(spans, f).start as usize;
    let to = from + member_count(tables.functions, f) as usize;
    tables.members.get(from..to).unwrap_or(&[])
}

impl Lookup<'_> {
    // The names of the functions inside the owner.
    #[tactic(auto, using(crate::proofs::InnerLaws::naming_first, crate::proofs::InnerLaws::naming_next, crate::proofs::ChainLaws::next_less))]
    fn name_inners(&self, entries: &mut [u32], spans: &mut [Span])
        ensures { NamesInners self.now.tables.now.symbols.now self.now.tables.now.functions.now self.now.tables.now.members.now
            self.now.scope.now entries.old spans.old entries.new spans.new }
    {
        let mut inner = self.scope.inners.first(self.scope.owner);
        while inner != 0 {
            let f = inner - 1;
            let share = share_of(self.tables, spans, f);
            self.name(entries, spans, share, f);
            inner = self.scope.inners.next(inner);
        }
    }

    // What each Ident of the owner comes to.
    #[tactic(auto, using(crate::proofs::IdentLaws::noting_first, crate::proofs::IdentLaws::noting_next, crate::proofs::IdentLaws::noting_last))]
    fn note_idents(&self, notes: &mut Notes)
        ensures { NotesIdents self.now.tables.now.records.now self.now.tables.now.symbols.now self.now.tables.now.references.now
            self.now.scope.now notes.old notes.new }
    {
        let mut r = self.scope.idents.first(self.scope.owner);
        while r != 0 {
            let reference = p(self.tables.records, r);
            note_ident(notes, r, self.load(reference), self.store(reference));
            r = self.scope.idents.next(r);
        }
    }
}

// Whether each number is below row 1's limit of symbols.
fn under_limit(members: &[u32]) -> bool
    ensures { result ≡ under 1024 members.now }
{
    members.iter().all(|m| *m < 1024)
}

// Whether there is room for all names, and each member is one of 1,024 symbols.
#[tactic(auto, unfolding(crate::specs::NameWords::fits))]
fn fits(tables: &Tables, entries: usize, spans: usize) -> bool
    ensures { result ≡ fits_of (semantic_of tables.now) entries spans }
{
    let n = pairs(tables.functions);
    let size = tables.members.len();
    n <= 256
        && size <= 1024
        && size * 3 <= entries
        && n <= spans
        && share_start(tables.functions, n) == size
        && under_limit(tables.members)
}

// Function by function: its names are stamped, its Idents noted, and the functions inside it named. A function is named in its parent's turn.
#[tactic(auto, using(crate::proofs::FitLaws::fits_all))]
pub fn resolve(tables: &Tables, entries: &mut [u32], spans: &mut [Span], notes: &mut Notes)
    ensures { Resolves (semantic_of tables.now) tables.now.records.now
        entries.old spans.old notes.old entries.new spans.new notes.new }
{
    if fits(tables, entries.len(), spans.len()) {
        // a blank one, made in its place, since a function that answers one would copy it
        let mut scope = Scope {
            owner: 0,
            symbols: [None; SYMBOLS],
            idents: Chain {
                heads: [0; OWNERS],
                nexts: [0; 4096],
            },
            inners: Chain {
                heads: [0; OWNERS],
                nexts: [0; 257],
            },
        };
        records(tables.records, notes, &mut scope.idents);
        functions_inside(tables.functions, spans, &mut scope.inners);
        let lookup = Lookup {
            tables: &*tables,
            scope: &scope,
        };
        lookup.name_inners(entries, spans);
        for f in 0..pairs(tables.functions) {
            let span = span_of(spans, f);
            scope.stamp_names(entries, span, f as u16 + 1);
            let lookup = Lookup {
                tables: &*tables,
                scope: &scope,
            };
            lookup.note_idents(notes);
            lookup.name_inners(entries, spans);
        }
    }
}
