// The generator's call.
ghost use Rattle.std.specs.Prelude.{◌≡◌, ℕ, ◌≤◌, get_or};
ghost use Rattle.context.specs.Words.{limit};
ghost use Rattle.pool.specs.NameWords.{over};
ghost use Rattle.codegen.specs.Walks.{run_of, Walked};
ghost use Rattle.codegen.specs.Listing.{Ready};
ghost use Rattle.codegen.specs.Outputs.{words, SameSlices};
ghost use Rattle.pool.specs.Names.{semantic_of};
ghost use Rattle.codegen.specs.Call.{Roomy, Listable, Listed, Sound, Answered, checked_in, answer_in, out_of, Demanded};

use crate::copied::name_words;
use crate::outputs::Outputs;
use crate::space::space;
use crate::streams::streams;
use crate::walks::{Judged, error_words, judge};
use context::tree::Tree;
use pool::notes;
use pool::resolve::resolve;
use pool::spans::Span;
use rules::Flow;
use tables::ast::size;
use tables::check::rows;
use tables::lent::{Tables, lent};
use tables::refusal::Refusal;

// "An answer is a listing or a refusal, the refusal holding where it arose."
#[derive(Clone, Copy)]
pub enum Answer {
    Listing {
        lines: usize,
        errors: usize,
        forecast: usize,
    },
    Refused(Refusal),
}

// A run that is not refused, as it was judged: the words of the functions met, their names, and the errors.
fn listed(
    tree: &Tree,
    entries: &[u32],
    spans: &[Span],
    outputs: &mut Outputs,
    judged: Judged,
) -> Answer
    requires ready { Ready tree.now.notes.now tree.now.records.now }
    requires walked { Walked (run_of tree.now) judged }
    requires listable { Listable (run_of tree.now) entries.now spans.now (words outputs.old) }
    ensures listed { Listed (run_of tree.now) tree.now.records.now entries.now spans.now result
        (words outputs.old) (words outputs.new) }
    ensures same { SameSlices outputs.old outputs.new }
{
    let met = judged.functions;
    let count = judged.errors as usize;
    streams(tree, spans, outputs, met);
    name_words(entries, spans, outputs.names, met);
    error_words(tree, outputs.errors, count);
    Answer::Listing {
        lines: met,
        errors: count,
        forecast: size(tree.records) * 32,
    }
}

// What the type of some words says of each, since that of a struct with them says nothing.
fn held(words: &[u32])
    ensures { (j : ℕ) → get_or words.now j 0 ≤ limit }
{}

// Tables that the rows accept: the names and notes, then the run, which is judged first: nothing is written unless it ends in a listing.
fn accepted(tables: &Tables, outputs: &mut Outputs) -> Answer
    requires sound { Sound tables.now.symbols.now tables.now.references.now tables.now.functions.now tables.now.members.now tables.now.records.now }
    requires roomy { Roomy (semantic_of tables.now) tables.now.records.now (words outputs.old) }
    ensures answered { Answered (semantic_of tables.now) tables.now.records.now result (words outputs.old) (words outputs.new) }
    ensures same { SameSlices outputs.old outputs.new }
{
    held(tables.records);
    let mut entries = [0u32; 3072];
    let mut spans = [Span::default(); 256];
    let mut notes = [0u32; notes::SIZE];
    resolve(tables, &mut entries, &mut spans, &mut notes);
    let tree = Tree {
        records: tables.records,
        notes: &notes,
    };
    let judged = judge(&tree, &mut []);
    if let Flow::Refused(rule, r) = judged.flow {
        return Answer::Refused(Refusal::Run(rule, r));
    }
    listed(&tree, &entries, &spans, outputs, judged)
}

// Rows 1 to 9.
#[tactic(auto, using(crate::proofs::AnswerLaws::table_checked, crate::proofs::AnswerLaws::space_checked))]
fn check(tables: &Tables, outputs: &Outputs) -> Result<(), Refusal>
    ensures { result ≡ checked_in tables.now outputs.now }
{
    if let Some(i) = lent(tables) {
        return Err(Refusal::Table(i));
    }
    if let Some(i) = space(tables, outputs) {
        return Err(Refusal::Space(i));
    }
    rows(tables)
}

// Document 01's call. A refusal changes no lent word; words past the written ones stay as they were.
pub fn gen_code(tables: &Tables, outputs: &mut Outputs) -> Answer
    ensures answer { result ≡ answer_in tables.now outputs.old }
    ensures markers { outputs.new.markers.now
        ≡ over (out_of result (semantic_of tables.now) tables.now.records.now).markers outputs.old.markers.now }
    ensures constants { outputs.new.constants.now
        ≡ over (out_of result (semantic_of tables.now) tables.now.records.now).constants outputs.old.constants.now }
    ensures names { outputs.new.names.now
        ≡ over (out_of result (semantic_of tables.now) tables.now.records.now).names_out outputs.old.names.now }
    ensures errors { outputs.new.errors.now
        ≡ over (out_of result (semantic_of tables.now) tables.now.records.now).errors outputs.old.errors.now }
    ensures lines { outputs.new.lines.now
        ≡ over (out_of result (semantic_of tables.now) tables.now.records.now).lines outputs.old.lines.now }
    ensures demand3 { Demanded result (semantic_of tables.now) tables.now.records.now
        outputs.new.markers.now outputs.new.constants.now outputs.new.lines.now }
    ensures same { SameSlices outputs.old outputs.new }
{
    if let Err(why) = check(tables, outputs) {
        return Answer::Refused(why);
    }
    accepted(tables, outputs)
}
