// The arms of visit_expr that visit no expression, and visit_params.
ghost use Rattle.std.specs.Prelude.{◌≡◌, List, ℕ};
ghost use Rattle.tables.specs.Record.{word};
ghost use Rattle.rules.specs.Arms.{effect_steps, break_steps, continue_steps, params_steps};
ghost use Rattle.context.specs.Rep.{lent, SameSizes, Moves};
ghost use Rattle.context.specs.Does.{Arm};
ghost use Rattle.plain.specs.Runs.{register as register_of, return_run};
ghost use Rattle.plain.specs.Leaves.{Leaf, Registers};

use crate::children::first_child;
use crate::siblings::{last, width};
use context::Context;
use context::tree::Tree;
use context::word::capped;
use opcode::index::LabelId;
use opcode::opcode::OpCode;
use pool::notes::earlier;
use pool::value::ConstValue;
use rules::StackCode;
use rules::error::ErrorKind;
use tables::ast::{first, next};

// ExprKind::Effect; the number of a record that has a kind is a word.
pub fn effect(tree: &Tree, cx: &mut Context, r: usize)
    ensures steps { word tree.now.records.now r 0 ≡ 6 → Arm tree.now cx.old cx.new r (λ sc. effect_steps) }
    ensures sizes { SameSizes cx.old cx.new }
{
    let name = first(tree.records, r);
    cx.push_load_const(tree.records, ConstValue::Effect(capped(r)));
    cx.store(tree.notes, name);
    cx.push_null(tree.records)
}

// ExprKind::Break
pub fn break_loop(tree: &Tree, cx: &mut Context, r: usize)
    ensures { Leaf tree.now.records.now cx.old cx.new r break_steps }
{
    let Some(label) = cx.break_label() else {
        return cx.cut(tree.records, ErrorKind::BreakOutsideLoop, r);
    };
    cx.push_code(OpCode::Break(label));
    cx.push_null(tree.records)
}

// ExprKind::Continue
pub fn continue_loop(tree: &Tree, cx: &mut Context, r: usize)
    ensures { Leaf tree.now.records.now cx.old cx.new r continue_steps }
{
    let Some(label) = cx.continue_label() else {
        return cx.cut(tree.records, ErrorKind::ContinueOutsideLoop, r);
    };
    cx.push_code(OpCode::Continue(label));
    cx.push_null(tree.records)
}

// A Return's jump to the label right behind it, in code 1.
pub fn push_return_label(cx: &mut Context)
    ensures moves { (recs : List ℕ) (r : ℕ) → Moves recs cx.old
        cx.new (λ c. return_run c.code r) }
    ensures consts { cx.new.consts ≡ cx.old.consts }
{
    if cx.stack == StackCode::Code1 {
        let return_label = cx.get_label();
        cx.push_code(OpCode::Jump(return_label));
        cx.push_label(return_label)
    }
}

// visit_params: from the last to the first, so that the variadic, which stands last, is stored first.
pub fn params(tree: &Tree, cx: &mut Context, r: usize)
    ensures steps { Arm tree.now cx.old cx.new r (λ sc. params_steps) }
    ensures consts { cx.new.consts ≡ cx.old.consts }
{
    let first = first(tree.records, r);
    let mut param = last(tree.records, first);
    for _ in 0..width(tree.records, first) {
        cx.store(tree.notes, param);
        param = earlier(tree.notes, param);
    }
}

// A Call's Handler is registered with a label of its own.
fn register(tree: &Tree, cx: &mut Context, handler: usize)
    ensures moves { (r : ℕ) → Moves tree.now.records.now cx.old
        cx.new (λ c. register_of (lent tree.now) r handler) }
    ensures consts { cx.new.consts ≡ cx.old.consts }
{
    let handler_label = cx.get_label();
    let effect = first_child(tree.records, handler);
    cx.load(tree.notes, effect);
    cx.push_code(OpCode::RegisterHandler(handler_label))
}

// So are the Handlers from this one on: answers the first one's label, and the others' follow it.
pub fn registers(tree: &Tree, cx: &mut Context, handlers: usize) -> LabelId
    ensures registers { Registers (lent tree.now) cx.old cx.new handlers result.0 }
    ensures consts { cx.new.consts ≡ cx.old.consts }
{
    let first_label = cx.coming_label();
    let mut handler = handlers;
    while handler != 0 {
        register(tree, cx, handler);
        handler = next(tree.records, handler);
    }
    first_label
}
