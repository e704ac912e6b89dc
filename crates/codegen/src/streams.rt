// The words of the functions met, one after the other.
ghost use Rattle.std.specs.Prelude.{◌≡◌, ◌≤◌, length};
ghost use Rattle.std.proofs.Props.{props};
ghost use Rattle.codegen.specs.Depth.{Depths};
ghost use Rattle.codegen.specs.Places.{Places};
ghost use Rattle.codegen.specs.Walks.{run_of};
ghost use Rattle.codegen.specs.Listing.{met_of, Ready, Turning, turned, onward, Spaced, upto};

use crate::depth::{depth, depths};
use crate::outputs::Outputs;
use crate::places::places;
use crate::walks::stream;
use context::tree::Tree;
use pool::entries::put;
use pool::spans::{Span, span_of};

// How many words of markers and of constants are written.
#[derive(Clone, Copy)]
pub(crate) struct Reached {
    pub markers: usize,
    pub constants: usize,
}

// The functions: where each one's names stand, the record of each, and the loop depth of each record's own tree.
#[derive(Clone, Copy)]
struct Functions<'a> {
    tree: Tree<'a>,
    spans: &'a [Span],
    places: &'a [u32],
    depths: &'a [u32],
    ghost ready: { Ready tree.notes.now tree.records.now } by { Prim.hlevel props },
    ghost placed: { Places tree.records.now places.now },
    ghost numbers_in_bounds: { 256 ≤ length places.now },
    ghost deep: { Depths tree.records.now depths.now },
}

// Function n: its markers, constants and line.
fn turn(functions: &Functions, outputs: &mut Outputs, n: usize, at: Reached) -> Reached
    requires { Turning (run_of functions.now.tree) outputs.old.markers.now outputs.old.constants.now outputs.old.lines.now n at }
    ensures outputs { outputs.new ≡ turned (run_of functions.now.tree) functions.now.tree.records.now functions.now.spans.now n at outputs.old }
    ensures reached { result ≡ onward (run_of functions.now.tree) n at }
{
    let r = functions.places[n] as usize;
    let m = at.markers;
    let k = at.constants;
    let counted = stream(
        &functions.tree,
        &mut outputs.markers[m..],
        &mut outputs.constants[k..],
        r,
    );
    let span = span_of(functions.spans, n);
    // "a line counting its markers, labels, constants, locals, globals, upvalues and loop depth"
    let line = [
        counted.markers,
        counted.labels,
        counted.consts,
        span.locals,
        span.globals,
        span.upvalues,
        depth(functions.tree.records, functions.depths, r),
    ];
    put(outputs.lines, n, line);
    Reached {
        markers: m + counted.markers as usize * 2,
        constants: k + counted.consts as usize * 3,
    }
}

// The functions met, in order of their numbers.
pub(crate) fn streams(tree: &Tree, spans: &[Span], outputs: &mut Outputs, met: usize)
    requires ready { Ready tree.now.notes.now tree.now.records.now }
    requires spaced { Spaced (run_of tree.now) outputs.old.markers.now outputs.old.constants.now outputs.old.lines.now }
    requires all_met { met ≡ met_of (run_of tree.now) }
    ensures { outputs.new ≡ upto (run_of tree.now) tree.now.records.now spans.now met outputs.old }
{
    let mut record_of = [0u32; 256];
    places(tree.records, &mut record_of);
    let mut deep = [0u32; 4096];
    depths(tree.records, &mut deep);
    let functions = Functions {
        tree: *tree,
        spans,
        places: &record_of,
        depths: &deep,
    };
    let mut at = Reached {
        markers: 0,
        constants: 0,
    };
    for n in 0..met {
        at = turn(&functions, outputs, n, at);
    }
}
