// The tests of one pattern.
ghost use Rattle.std.specs.Prelude.{◌≡◌, List, ℕ};
ghost use Rattle.tables.specs.Record.{words};
ghost use Rattle.pattern.specs.Tests.{lit_run, ident_run, table_run};
ghost use Rattle.pattern.specs.Promises.{WithLabel};

use context::Context;
use context::tree::Tree;
use opcode::index::LabelId;
use opcode::opcode::OpCode;
use pool::value::ConstValue;
use tables::ast::flag;

// ValueType::Table
const TABLE: u32 = 6;

// PatternKind::Lit
pub fn lit(tree: &Tree, cx: &mut Context, pattern: usize, next_pattern_label: LabelId)
    ensures { (q : ℕ) → WithLabel tree.now.records.now cx.old cx.new next_pattern_label.0 (λ r y. lit_run r y q (words tree.now.records.now pattern)) }
{
    cx.push_lit(tree.records, pattern);
    cx.push_code(OpCode::Eq);
    cx.push_code(OpCode::PopJumpIfFalse(next_pattern_label))
}

// PatternKind::Ident
pub fn ident(tree: &Tree, cx: &mut Context, pattern: usize, next_pattern_label: LabelId)
    ensures tests { (recs : List ℕ) → WithLabel recs cx.old cx.new next_pattern_label.0 (λ r y. ident_run tree.now.notes.now r y pattern) }
    ensures consts { cx.new.consts ≡ cx.old.consts }
{
    cx.push_code(OpCode::JumpPopIfNull(next_pattern_label));
    cx.store(tree.notes, pattern)
}

// A Table or List of n pairs or items: the type, and without others the length.
pub fn push_table_test(
    tree: &Tree,
    cx: &mut Context,
    pattern: usize,
    n: u32,
    clean_stack_label: LabelId,
)
    ensures { (q : ℕ) → WithLabel tree.now.records.now cx.old cx.new clean_stack_label.0 (λ r y. table_run r y q (words tree.now.records.now pattern) n) }
{
    cx.push_code(OpCode::Copy(1));
    cx.push_code(OpCode::TypeCheck(TABLE));
    cx.push_code(OpCode::PopJumpIfFalse(clean_stack_label));
    // there may be others
    if flag(tree.records, pattern) {
        return;
    }
    cx.push_code(OpCode::Copy(1));
    cx.push_code(OpCode::GetLen);
    cx.push_load_const(tree.records, ConstValue::Int(n, 0));
    cx.push_code(OpCode::Eq);
    cx.push_code(OpCode::PopJumpIfFalse(clean_stack_label))
}
