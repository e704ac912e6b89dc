// The walks: the run judged with the functions inside, its errors' words, and the stream of one function.
ghost use Rattle.std.specs.Prelude.{◌≡◌, ◌<◌, length};
ghost use Rattle.rules.specs.Run.{side};
ghost use Rattle.context.specs.Words.{limit};
ghost use Rattle.context.specs.Rep.{lent, note, Scoped};
ghost use Rattle.codegen.specs.Walks.{run_of, single, Walkable, Walked, Streamed};

use context::tree::Tree;
use context::{Context, KEPT};
use opcode::index::LabelId;
use pool::consts::start_consts;
use rules::{Flow, StackCode};
use visit::{body, inner};

// The stack code that is generated.
const STACK: StackCode = StackCode::Code1;

// How a run ended, how many functions it met and how many errors it kept.
#[derive(Clone, Copy)]
pub(crate) struct Judged {
    pub flow: Flow,
    pub functions: usize,
    pub errors: u32,
}

// How many markers, labels and constants a function's stream has.
#[derive(Clone, Copy)]
pub(crate) struct Counted {
    pub markers: u32,
    pub labels: u32,
    pub consts: u32,
}

// The run judged: nothing but its errors' words is written, to errors, where they have room.
pub(crate) fn judge(tree: &Tree, errors: &mut [u32]) -> Judged
    requires { Walkable tree.now.notes.now tree.now.records.now }
    ensures run { Walked (run_of tree.now) result }
    ensures words { length (side (run_of tree.now)).errors < limit
        → errors.new ≡ note errors.old (side (run_of tree.now)).errors }
{
    let mut none = [0u32; 0];
    let mut cx = Context {
        code: errors,
        consts: &mut none,
        marker_count: 0,
        label_count: 0,
        const_count: 1,
        error_count: 0,
        continue_stack: [LabelId(0); KEPT],
        depth: 0,
        flow: Flow::Go,
        functions: 0,
        nest: true,
        function: 0,
        stack: STACK,
    };
    inner(tree, &mut cx, 0);
    Judged {
        flow: cx.flow,
        functions: cx.functions,
        errors: cx.error_count,
    }
}

// The errors' words, where there are errors: a walk more.
#[tactic(auto, using(crate::proofs::WalkLaws::none_noted))]
pub(crate) fn error_words(tree: &Tree, errors: &mut [u32], count: usize)
    requires walkable { Walkable tree.now.notes.now tree.now.records.now }
    requires counted { count ≡ length (side (run_of tree.now)).errors }
    requires few { count < limit }
    ensures { errors.new ≡ note errors.old (side (run_of tree.now)).errors }
{
    if 0 < count {
        judge(tree, errors);
    }
}

// The function at record r by itself: its markers go to code, its constants to consts.
pub(crate) fn stream(tree: &Tree, code: &mut [u32], consts: &mut [u32], r: usize) -> Counted
    requires { Scoped (lent tree.now) }
    ensures { Streamed tree.now.records.now (single tree.now.notes.now tree.now.records.now r)
        code.old consts.old code.new consts.new result }
{
    start_consts(consts);
    let mut cx = Context {
        code,
        consts,
        marker_count: 0,
        label_count: 0,
        const_count: 1,
        error_count: 0,
        continue_stack: [LabelId(0); KEPT],
        depth: 0,
        flow: Flow::Go,
        functions: 0,
        nest: false,
        function: r,
        stack: STACK,
    };
    body(tree, &mut cx, r);
    Counted {
        markers: cx.marker_count,
        labels: cx.label_count,
        consts: cx.const_count,
    }
}
