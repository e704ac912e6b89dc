// The patterns of a Match's Cases.
ghost use Rattle.pattern.specs.Promises.{TestsPattern, TestsCase, Tests};

use crate::clean::CleanStack;
use crate::depth::visit_pattern_depth;
use context::Context;
use context::label::next_label;
use context::tree::Tree;
use opcode::index::LabelId;
use opcode::opcode::OpCode;
use plain::children::first_child;
use tables::ast::{next, p};

// One pattern: where it matches, the jump to its Case's block.
fn test(tree: &Tree, cx: &mut Context, pattern: usize, block_label: LabelId)
    ensures { TestsPattern tree.now.records.now tree.now.notes.now cx.old cx.new pattern block_label.0 }
{
    let stack = CleanStack::new(cx);
    cx.push_code(OpCode::Copy(1));
    let taken = visit_pattern_depth(tree, cx, pattern, 0, stack);
    cx.push_code(OpCode::Pop);
    cx.push_code(OpCode::Jump(block_label));
    taken.clean_up(cx)
}

// The patterns of one Case.
fn case_patterns(tree: &Tree, cx: &mut Context, case: usize, block_label: LabelId)
    ensures { TestsCase tree.now.records.now tree.now.notes.now cx.old cx.new «case» block_label.0 }
{
    let mut pattern = first_child(tree.records, case);
    for _ in 0..p(tree.records, case) {
        if pattern == 0 {
            return;
        }
        test(tree, cx, pattern, block_label);
        pattern = next(tree.records, pattern);
    }
}

// The patterns of the Cases from the record `cases` on; their blocks' labels follow one another.
pub fn patterns(tree: &Tree, cx: &mut Context, cases: usize, block_label: LabelId)
    ensures { Tests tree.now.records.now tree.now.notes.now cx.old cx.new cases block_label.0 }
{
    let mut case = cases;
    let mut label = block_label;
    while case != 0 {
        case_patterns(tree, cx, case, label);
        case = next(tree.records, case);
        label = next_label(label);
    }
}
