// Replays cases of the call: for each case of the input the lengths of the seven tables and of the five outputs, then the words of tables 1 to 7.
// The answer is `refused` with number and place, or `listing` with its numbers and the words of the five outputs; `changed` where a word is that may not be.
#![tactic(auto)]

ghost use Rattle.std.specs.Prelude.{◌<◌, ◌≤◌};

use codegen::call::{Answer, gen_code};
use codegen::outputs::Outputs;
use replay::case::{Case, narrow};
use replay::print::{refused, unreadable};
use replay::run::{PrintCase, print_each_case};
use tables::refusal::Refusal;
use tables::semantic::entry;
use tables::slices::{front, rest};

// A case has so many numbers before its tables.
const NUMBERS: usize = 12;
// Room for the bytes of table 2.
const BYTES: usize = 4096;
// What the outputs hold before a call.
const FILL: u32 = 3735928559;

// The words of an output, with a space between. A writing that fails is passed over, here and below.
fn print_words(rt: &impl Print, words: &[u32]) {
    for (k, word) in words.iter().enumerate() {
        if 0 < k {
            let _ = print!(rt; " ");
        }
        let _ = print!(rt; "{word}");
    }
    let _ = println!(rt);
}

// Whether the words are as they were before the call.
fn keep(rt: &impl Print, words: &[u32]) {
    if words.iter().any(|&word| word != FILL) {
        let _ = println!(rt; "changed");
    }
}

// The words that a listing holds; those behind them were to stay.
fn show(rt: &impl Print, out: &[u32], count: usize) {
    print_words(rt, front(out, count));
    keep(rt, rest(out, count));
}

// What was lent for the five outputs, after a call.
#[derive(Clone, Copy)]
struct Space<'a> {
    markers: &'a [u32],
    constants: &'a [u32],
    names: &'a [u32],
    errors: &'a [u32],
    lines: &'a [u32],
}

// How many words of an output are lent, at most so many.
fn room(case: Case, i: usize, most: usize) -> usize
    ensures { result ≤ most }
{
    case.number(i).min(most)
}

// The sum of one number over the lines of the functions met, which no output holds where it is more.
fn column(lines: &[u32], k: usize, met: usize) -> usize
    ensures { result < 65536 }
{
    let sum = lines.chunks_exact(7).take(met).fold(
        0usize,
        |total, line| total.saturating_add(entry(line, k) as usize),
    );
    sum.min(65535)
}

fn listed(rt: &impl Print, out: Space, met: usize, count: usize) {
    let names = column(out.lines, 3, met) + column(out.lines, 4, met) + column(out.lines, 5, met);
    show(rt, out.markers, column(out.lines, 0, met) * 2);
    show(rt, out.constants, column(out.lines, 2, met) * 3);
    show(rt, out.names, names * 3);
    show(rt, out.errors, count.saturating_mul(3));
    show(rt, out.lines, met.saturating_mul(7));
}

// A refusal changes no lent word.
fn kept(rt: &impl Print, out: Space, why: Refusal) {
    let _ = print!(rt; "refused ");
    refused(rt, why);
    keep(rt, out.markers);
    keep(rt, out.constants);
    keep(rt, out.names);
    keep(rt, out.errors);
    keep(rt, out.lines);
}

fn answer(rt: &impl Print, out: Space, answer: Answer) {
    match answer {
        Answer::Listing {
            lines: met,
            errors: count,
            forecast,
        } => {
            let _ = println!(rt; "listing {met} {count} {forecast}");
            listed(rt, out, met, count);
        }
        Answer::Refused(why) => kept(rt, out, why),
    }
}

// Outputs for 528 records.
fn with_outputs<'a>(rt: &impl Print, case: Case<'a>, bytes: &'a [u8]) {
    let mut markers = [FILL; 9216];
    let mut constants = [FILL; 2048];
    let mut names = [FILL; 512];
    let mut errors = [FILL; 512];
    let mut lines = [FILL; 2048];
    let tables = case.tables(bytes);
    let mut outputs = Outputs {
        markers: &mut markers[..room(case, 7, 9216)],
        constants: &mut constants[..room(case, 8, 2048)],
        names: &mut names[..room(case, 9, 512)],
        errors: &mut errors[..room(case, 10, 512)],
        lines: &mut lines[..room(case, 11, 2048)],
    };
    let given = gen_code(&tables, &mut outputs);
    let out = Space {
        markers: &markers[..room(case, 7, 9216)],
        constants: &constants[..room(case, 8, 2048)],
        names: &names[..room(case, 9, 512)],
        errors: &errors[..room(case, 10, 512)],
        lines: &lines[..room(case, 11, 2048)],
    };
    answer(rt, out, given);
}

#[derive(Clone, Copy)]
struct Calls;

impl PrintCase for Calls {
    fn show<R: Print>(&self, rt: &R, case: Case) {
        let mut bytes = [0u8; BYTES];
        let words = case.table(1);
        if narrow(words, &mut bytes) {
            with_outputs(rt, case, front(&bytes, words.len()));
        } else {
            unreadable(rt);
        }
    }
}

fn main(rt: HostRuntime) {
    print_each_case(&rt, NUMBERS, &Calls);
}
