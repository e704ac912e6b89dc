// The member of a record, and what is pushed for it.
ghost use Rattle.std.specs.Prelude.{◌≡◌, ◌-◌, ◌%◌};
ghost use Rattle.opcode.specs.Words.{op_words};
ghost use Rattle.opcode.specs.Members.{get_of, set_of};
ghost use Rattle.tables.specs.Record.{word, words};
ghost use Rattle.rules.specs.Arms.{is_method, unlabelled};
ghost use Rattle.context.specs.Sinks.{pushed};
ghost use Rattle.plain.specs.Operators.{member_of, is_meta};
ghost use Rattle.plain.specs.Leaves.{JumpsSafe};

use context::Context;
use context::tree::Tree;
use opcode::index::LabelId;
use opcode::member::MemberKind;
use opcode::opcode::OpCode;
use rules::StackCode;
use tables::ast::{detail, kind};
use tables::detail;
use tables::kind::Kind;

#[tactic(auto, using(crate::proofs::OperatorLaws::found_member_lem))]
fn member(n: u32) -> MemberKind
    ensures { result ≡ member_of n }
{
    MemberKind::try_from(n).unwrap_or(MemberKind::DoubleColonMeta)
}

// The property of a Member.
pub fn property_of(recs: &[u32], r: usize) -> MemberKind
    ensures { result ≡ member_of (word recs.now r 1 % 8) }
{
    member(detail(recs, r) % detail::SAFE)
}

// The property of a Left that is no plain name.
pub fn left_property(recs: &[u32], left: usize) -> MemberKind
    ensures { result ≡ member_of (word recs.now left 1 - 1) }
{
    let d = detail(recs, left);
    if d == detail::PLAIN {
        return MemberKind::Bracket;
    }
    member(d - 1)
}

// Whether a callee hands its table on as the first argument.
pub fn is_method(recs: &[u32], callee: usize) -> bool
    ensures { result ≡ is_method (words recs.now callee) }
{
    if kind(recs, callee) != Kind::Member {
        return false;
    }
    matches!(
        property_of(recs, callee),
        MemberKind::Dot | MemberKind::DotMeta
    )
}

// Whether nothing stands behind the dot, the colons or in the brackets.
pub fn is_meta(property: MemberKind) -> bool
    ensures { result ≡ is_meta property }
{
    matches!(
        property,
        MemberKind::BracketMeta | MemberKind::DotMeta | MemberKind::DoubleColonMeta
    )
}

// Whether the Member r takes no label: in code 2, where it is not safe.
pub fn is_unlabelled(tree: &Tree, cx: &Context, r: usize) -> bool
    ensures { result ≡ unlabelled (cx.now.stack) (word tree.now.records.now r 1) }
{
    cx.stack == StackCode::Code2 && detail(tree.records, r) < detail::SAFE
}

// if safe.is_some() { push_code(JumpPopIfNull(safe_label)) }
pub fn push_safe_jump(tree: &Tree, cx: &mut Context, r: usize, safe_label: LabelId)
    ensures jumps { JumpsSafe tree.now.records.now cx.old cx.new r safe_label.0 }
    ensures consts { cx.new.consts ≡ cx.old.consts }
{
    if detail(tree.records, r) < detail::SAFE {
        return;
    }
    cx.push_code(OpCode::JumpPopIfNull(safe_label))
}

// push_code(property.get_opcode())
pub fn push_get(cx: &mut Context, property: MemberKind)
    ensures { cx.new ≡ pushed (op_words (get_of property)) cx.old }
{
    cx.push_code(property.get_opcode())
}

// push_code(property.set_opcode())
pub fn push_set(cx: &mut Context, property: MemberKind)
    ensures { cx.new ≡ pushed (op_words (set_of property)) cx.old }
{
    cx.push_code(property.set_opcode())
}
