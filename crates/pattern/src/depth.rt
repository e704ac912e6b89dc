// visit_pattern_depth: a cycle of three. Each answers the clean-up labels that are taken then.
ghost use Rattle.pattern.specs.Promises.{VisitsPattern, VisitsNested};

use crate::clean::CleanStack;
use crate::test::{ident, lit, push_table_test};
use context::Context;
use context::tree::Tree;
use context::word::capped;
use opcode::opcode::OpCode;
use plain::item::{push_item, push_value};
use plain::siblings::width;
use tables::ast::{first, kind, next};
use tables::kind::Kind;

#[cycle(patterns)]
pub fn visit_pattern_depth(
    tree: &Tree,
    cx: &mut Context,
    pattern: usize,
    depth: u32,
    stack: CleanStack,
) -> CleanStack
    ensures { VisitsPattern tree.now.records.now tree.now.notes.now cx.old cx.new pattern depth stack result }
{
    if pattern == 0 {
        return stack;
    }
    let next_pattern_label = stack.label(depth);
    match kind(tree.records, pattern) {
        Kind::TablePattern => table(tree, cx, pattern, depth, stack),
        Kind::ListPattern => list(tree, cx, pattern, depth, stack),
        Kind::IdentPattern => {
            ident(tree, cx, pattern, next_pattern_label);
            stack
        }
        _ => {
            lit(tree, cx, pattern, next_pattern_label);
            stack
        }
    }
}

// PatternKind::Table
#[cycle(patterns)]
fn table(tree: &Tree, cx: &mut Context, pattern: usize, depth: u32, stack: CleanStack) -> CleanStack
    ensures { VisitsNested tree.now.records.now tree.now.notes.now cx.old cx.new 37 pattern depth stack result }
{
    let inside = depth.saturating_add(1);
    let mut key = first(tree.records, pattern);
    let mut taken = stack.deepened(cx, inside);
    let pairs = capped(width(tree.records, key) / 2);
    let clean_stack_label = taken.label(inside);
    push_table_test(tree, cx, pattern, pairs, clean_stack_label);
    while key != 0 {
        let value = next(tree.records, key);
        push_value(tree, cx, key);
        taken = visit_pattern_depth(tree, cx, value, inside, taken);
        key = next(tree.records, value);
    }
    cx.push_code(OpCode::Pop);
    taken
}

// PatternKind::List
#[cycle(patterns)]
fn list(tree: &Tree, cx: &mut Context, pattern: usize, depth: u32, stack: CleanStack) -> CleanStack
    ensures { VisitsNested tree.now.records.now tree.now.notes.now cx.old cx.new 38 pattern depth stack result }
{
    let inside = depth.saturating_add(1);
    let mut item = first(tree.records, pattern);
    let mut taken = stack.deepened(cx, inside);
    let items = capped(width(tree.records, item));
    let clean_stack_label = taken.label(inside);
    push_table_test(tree, cx, pattern, items, clean_stack_label);
    let mut i: u32 = 0;
    while item != 0 {
        push_item(tree, cx, i);
        taken = visit_pattern_depth(tree, cx, item, inside, taken);
        item = next(tree.records, item);
        i = i.saturating_add(1);
    }
    cx.push_code(OpCode::Pop);
    taken
}
