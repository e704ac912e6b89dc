// What a For does around the expressions that it visits.
ghost use Rattle.std.specs.Prelude.{ℕ};
ghost use Rattle.context.specs.Rep.{lent, Moves};
ghost use Rattle.plain.specs.Runs.{iterate_run, items_put, targets_put, end_for_run};
ghost use Rattle.plain.specs.Leaves.{WithLabels};

use crate::item::push_item;
use context::Context;
use context::tree::Tree;
use opcode::index::LabelId;
use opcode::opcode::OpCode;
use pool::value::ConstValue;
use tables::ast::next;

// A For behind its right side, up to the call of the iterator.
pub fn iterate(tree: &Tree, cx: &mut Context, continue_label: LabelId, body_label: LabelId)
    ensures { WithLabels tree.now.records.now cx.old
        cx.new continue_label.0 body_label.0 iterate_run }
{
    cx.push_code(OpCode::Iter);
    cx.push_label(continue_label);
    cx.push_null(tree.records);
    cx.push_load_const(tree.records, ConstValue::Yield);
    cx.push_code(OpCode::RegisterHandler(body_label));
    cx.push_code(OpCode::Call(1))
}

// The first n items are stored to the Idents from this one on.
fn items(tree: &Tree, cx: &mut Context, left: usize, n: u32)
    ensures { (r : ℕ) → Moves tree.now.records.now cx.old
        cx.new
        (λ c. items_put (lent tree.now) r 0 n left) }
{
    let mut at = left;
    for i in 0..n {
        push_item(tree, cx, i);
        cx.store(tree.notes, at);
        at = next(tree.records, at);
    }
}

// A For's n targets: the value itself to one Ident, its items to several.
pub fn targets(tree: &Tree, cx: &mut Context, left: usize, n: u32)
    ensures { (r : ℕ) → Moves tree.now.records.now cx.old
        cx.new
        (λ c. targets_put (lent tree.now) r n left) }
{
    if n == 1 {
        return cx.store(tree.notes, left);
    }
    items(tree, cx, left, n);
    cx.push_code(OpCode::Pop)
}

// The end of a For.
pub fn end_for(tree: &Tree, cx: &mut Context, continue_label: LabelId, break_label: LabelId)
    ensures { WithLabels tree.now.records.now cx.old
        cx.new continue_label.0 break_label.0 end_for_run }
{
    cx.push_code(OpCode::Pop);
    cx.push_code(OpCode::JumpBackEdge(continue_label));
    cx.push_label(break_label);
    cx.push_code(OpCode::Pop);
    cx.push_null(tree.records);
    cx.end_loop()
}
