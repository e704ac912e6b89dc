// The call for C and Rust in plain numbers: an answer is a number and three values. `codegen_c` exports it.
ghost use Rattle.std.specs.Prelude.{◌≡◌, cond, length, ltb};
ghost use Rattle.pool.specs.NameWords.{over};
ghost use Rattle.codegen.specs.Outputs.{words, SameSlices};
ghost use Rattle.pool.specs.Names.{semantic_of};
ghost use Rattle.codegen.specs.Call.{answer_in, number_in, valued, Promised};

use crate::call::{Answer, gen_code};
use crate::outputs::Outputs;
use tables::lent::Tables;

// Three values, where there is room.
fn put(values: &mut [u64], told: [u64; 3])
    ensures { values.new ≡ cond (ltb 2 (length values.old)) (over told values.old) values.old }
{
    if 2 < values.len() {
        values[..3].copy_from_slice(&told);
    }
}

// An answer in plain numbers.
fn report(values: &mut [u64], answer: Answer) -> u32
    ensures number { result ≡ number_in answer }
    ensures values { values.new ≡ valued answer values.old }
{
    match answer {
        Answer::Listing {
            lines,
            errors,
            forecast,
        } => {
            put(values, [lines as u64, errors as u64, forecast as u64]);
            0
        }
        Answer::Refused(why) => {
            put(values, [why.place() as u64, 0, 0]);
            why.number()
        }
    }
}

// The number is 0 for a listing, whose values are its lines, errors and forecast; else it is the refusal's, whose values are its place and two zeros.
pub fn lucia_gen_code(tables: &Tables, outputs: &mut Outputs, values: &mut [u64]) -> u32
    ensures promised { Promised (answer_in tables.now outputs.old) (semantic_of tables.now) tables.now.records.now
        result values.old values.new (words outputs.old) (words outputs.new) }
    ensures same { SameSlices outputs.old outputs.new }
{
    let answer = gen_code(tables, outputs);
    report(values, answer)
}
