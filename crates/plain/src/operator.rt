// The operators of a record, and what is pushed for them.
ghost use Rattle.std.specs.Prelude.{◌≡◌};
ghost use Rattle.opcode.specs.Words.{pair_of, op_words};
ghost use Rattle.opcode.specs.Operators.{from_bin_op, from_un_op};
ghost use Rattle.tables.specs.Record.{word};
ghost use Rattle.tables.specs.Forest.{forest, own_tree};
ghost use Rattle.rules.specs.Out.{code_number, forward_number};
ghost use Rattle.context.specs.Sinks.{pushed};
ghost use Rattle.plain.specs.Operators.{binary_of, unary_of, is_short, short_assign, short_jump, call_of, with_operator};

use context::Context;
use opcode::index::LabelId;
use opcode::opcode::OpCode;
use opcode::operator::{BinOp, UnOp};
use tables::ast::detail;
use tables::detail;
use tables::refusal::RunRule;

// The operator of a Binary or an AssignOp.
#[tactic(auto, using(crate::proofs::OperatorLaws::found_binary))]
pub fn binary_operator(recs: &[u32], r: usize) -> BinOp
    ensures { result ≡ binary_of (word recs.now r 1) }
{
    BinOp::try_from(detail(recs, r)).unwrap_or(BinOp::Add)
}

// The operator of a Unary.
#[tactic(auto, using(crate::proofs::OperatorLaws::found_unary))]
pub fn unary_operator(recs: &[u32], r: usize) -> UnOp
    ensures { result ≡ unary_of (word recs.now r 1) }
{
    UnOp::try_from(detail(recs, r)).unwrap_or(UnOp::Not)
}

// push_code(OpCode::from(operator))
pub fn push_unary(cx: &mut Context, operator: UnOp)
    ensures { cx.new ≡ pushed (op_words (from_un_op operator)) cx.old }
{
    cx.push_code(OpCode::from(operator))
}

// push_code(OpCode::from(operator)): And, Or and Is have no opcode.
pub fn push_binary(cx: &mut Context, operator: BinOp, r: usize)
    ensures { cx.new ≡ with_operator (from_bin_op operator) r cx.old }
{
    let Ok(op) = OpCode::try_from(operator) else {
        return cx.refuse(RunRule::Operator, r);
    };
    cx.push_code(op)
}

fn is_short(operator: BinOp) -> bool
    ensures { result ≡ is_short operator }
{
    matches!(operator, BinOp::And | BinOp::Or)
}

// Whether an AssignOp is `and=` or `or=` on a plain name.
pub fn is_short_assign(recs: &[u32], operator: BinOp, left: usize) -> bool
    ensures { result ≡ short_assign operator (own_tree (forest recs.now left)) }
{
    if left == 0 {
        return is_short(operator);
    }
    if detail(recs, left) != detail::PLAIN {
        return false;
    }
    is_short(operator)
}

// The jump of `or=` over the right side, or of `and=`.
pub fn push_short_jump(cx: &mut Context, operator: BinOp, label: LabelId)
    ensures { cx.new ≡ pushed (pair_of (forward_number (short_jump operator)) label.0) cx.old }
{
    match operator {
        BinOp::Or => cx.push_code(OpCode::JumpIfTrueOrPop(label)),
        _ => cx.push_code(OpCode::JumpIfFalseOrPop(label)),
    }
}

// A Call of n arguments, returned or not.
pub fn push_calling(cx: &mut Context, tail: bool, n: u32)
    ensures { cx.new ≡ pushed (pair_of (code_number (call_of tail)) n) cx.old }
{
    if tail {
        return cx.push_code(OpCode::ReturnCall(n));
    }
    cx.push_code(OpCode::Call(n))
}
