// What an Import stores.
ghost use Rattle.std.specs.Prelude.{◌≡◌, cond, List, ℕ, eqb};
ghost use Rattle.tables.specs.Record.{word};
ghost use Rattle.rules.specs.Arms.{item_steps};
ghost use Rattle.context.specs.Does.{nth as nth_of, Arm};
ghost use Rattle.plain.specs.Runs.{simple_store};

use crate::children::name_of;
use crate::siblings::nth;
use context::Context;
use context::tree::Tree;
use tables::ast::{first, flag, import_kind, next, p};
use tables::kind::ImportKind;
use tables::refusal::RunRule;

// ImportKind::Simple: the last Ident of the path is stored to, or the alias behind it; an empty path has no last one.
pub fn simple(tree: &Tree, cx: &mut Context, r: usize)
    ensures steps { Arm tree.now cx.old cx.new r (λ sc w k. simple_store w w.p) }
    ensures consts { cx.new.consts ≡ cx.old.consts }
{
    let path = first(tree.records, r);
    let n = p(tree.records, r) as usize;
    if n == 0 {
        return cx.refuse(RunRule::Path, r);
    }
    if import_kind(tree.records, r) == ImportKind::Simple {
        return cx.store(tree.notes, nth(tree.records, path, n.saturating_sub(1)));
    }
    cx.store(tree.notes, nth(tree.records, path, n))
}

// The Ident that an Item is stored to.
fn alias(recs: &[u32], item: usize, name: usize) -> usize
    ensures { result ≡ nth_of recs.now (cond (eqb (word recs.now item 1) 1) 1 0) name }
{
    if flag(recs, item) {
        return next(recs, name);
    }
    name
}

// An Item of an Import.
pub fn import_item(tree: &Tree, cx: &mut Context, item: usize)
    ensures { Arm tree.now cx.old cx.new item (λ sc. item_steps) }
{
    let name = first(tree.records, item);
    cx.push_import_from(tree.records, name_of(tree.records, name));
    cx.store(tree.notes, alias(tree.records, item, name))
}
