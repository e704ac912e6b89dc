// What the assignments do beside the expressions that they visit.
ghost use Rattle.std.specs.Prelude.{◌≡◌, List, ℕ, ◌-◌};
ghost use Rattle.rules.specs.Marker.{Copy, Do, mark};
ghost use Rattle.rules.specs.Step.{After};
ghost use Rattle.context.specs.Rep.{Moves};
ghost use Rattle.context.specs.Does.{Visits};
ghost use Rattle.plain.specs.Runs.{repeated, set_run};

use crate::member::{is_meta, left_property, push_set};
use context::Context;
use context::tree::Tree;
use opcode::member::MemberKind;
use opcode::opcode::OpCode;
use tables::ast::{detail, first, kind};
use tables::detail;
use tables::kind::Kind;

// n times the value that is there.
pub fn copies(cx: &mut Context, n: u32)
    ensures moves { (recs : List ℕ) (r : ℕ) → Moves recs cx.old
        cx.new (λ c. repeated (mark r (Do Copy 1)) (n - 1)) }
    ensures consts { cx.new.consts ≡ cx.old.consts }
{
    for _ in 1..n {
        cx.push_code(OpCode::Copy(1));
    }
}

// An AssignOp's member is set.
fn set_member(cx: &mut Context, property: MemberKind)
    ensures moves { (recs : List ℕ) (r : ℕ) → Moves recs cx.old
        cx.new (λ c. set_run r property) }
    ensures consts { cx.new.consts ≡ cx.old.consts }
{
    if is_meta(property) {
        cx.push_code(OpCode::Swap(2));
        return push_set(cx, property);
    }
    cx.push_code(OpCode::Swap(3));
    cx.push_code(OpCode::Swap(2));
    push_set(cx, property)
}

// An AssignOp's Left after the operator: its new value is stored.
pub fn after(tree: &Tree, cx: &mut Context, left: usize)
    ensures visits { Visits tree.now cx.old cx.new After left }
    ensures consts { cx.new.consts ≡ cx.old.consts }
{
    if left == 0 {
        return;
    }
    if kind(tree.records, left) != Kind::Left {
        return;
    }
    let ident = first(tree.records, left);
    if detail(tree.records, left) == detail::PLAIN {
        return cx.store(tree.notes, ident);
    }
    set_member(cx, left_property(tree.records, left));
    cx.store(tree.notes, ident)
}
