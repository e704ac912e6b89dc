// genlist's work between its input and its output: the tables of a text are read, the call is made, its answer is printed.
ghost use Rattle.std.specs.Prelude.{◌≡◌, ◌≤◌, length, take};
ghost use Rattle.codegen.specs.Call.{lists};
ghost use Rattle.listing.specs.Print.{after, Wrote};
ghost use Rattle.listing.specs.Text.{words};
ghost use Rattle.lister.specs.Genlist.{most, answer_text, given, sized, call_text, genlist_text};

use crate::fronts::{TOO_LONG, overlong};
use codegen::call::{Answer, gen_code};
use codegen::outputs::Outputs;
use listing::print::{Source, input, listing, refusal};
use listing::read::{Lent, Sizes, read};
use listing::text::Writer;
use tables::lent::Tables;
use tables::slices::front;

fn answered(w: &mut Writer, s: &Source, answer: Answer)
    ensures { w.new ≡ after (answer_text s.now.symbols.now s.now.records.now (lists s.now.markers.now
        s.now.constants.now s.now.names.now s.now.errors.now s.now.lines.now) answer) w.old }
{
    match answer {
        Answer::Listing {
            lines: met,
            errors: told,
            forecast: _,
        } => listing(w, s, met, told),
        Answer::Refused(why) => refusal(w, why.number(), why.place()),
    }
}

// The outputs are as long as the most records, members and functions of a text need.
fn generated(w: &mut Writer, tables: &Tables)
    ensures { w.new ≡ after (call_text (given tables.now)) w.old }
{
    let mut markers = [0u32; 8960];
    let mut constants = [0u32; 1260];
    let mut names = [0u32; 420];
    let mut errors = [0u32; 420];
    let mut lines = [0u32; 980];
    let mut outputs = Outputs {
        markers: &mut markers,
        constants: &mut constants,
        names: &mut names,
        errors: &mut errors,
        lines: &mut lines,
    };
    let answer = gen_code(tables, &mut outputs);
    let source = Source {
        symbols: tables.symbols,
        records: tables.records,
        markers: &markers,
        constants: &constants,
        names: &names,
        errors: &errors,
        lines: &lines,
    };
    answered(w, &source, answer);
}

// The tables are the front of what was lent to the reading.
fn printed(w: &mut Writer, lent: &Lent, sizes: Sizes)
    ensures { w.new ≡ after (call_text (sized sizes (words lent.now))) w.old }
{
    let tables = Tables {
        strings: front(lent.strings, sizes.strings),
        bytes: front(lent.bytes, sizes.bytes),
        symbols: front(lent.symbols, sizes.symbols),
        references: front(lent.references, sizes.references),
        functions: front(lent.functions, sizes.functions),
        members: front(lent.members, sizes.members),
        records: front(lent.records, sizes.records),
    };
    generated(w, &tables);
}

// What genlist prints of a text.
fn listed(w: &mut Writer, text: &[u8])
    ensures { w.new ≡ after (genlist_text text.now) w.old }
{
    let mut strings = [0u32; 280];
    let mut bytes = [0u8; 4096];
    let mut symbols = [0u32; 280];
    let mut references = [0u32; 140];
    let mut functions = [0u32; 280];
    let mut members = [0u32; 140];
    let mut records = [0u32; 1120];
    let mut lent = Lent {
        strings: &mut strings,
        bytes: &mut bytes,
        symbols: &mut symbols,
        references: &mut references,
        functions: &mut functions,
        members: &mut members,
        records: &mut records,
    };
    let sizes = match read(front(text, TOO_LONG), &mut lent) {
        Ok(sizes) => sizes,
        Err(unread) => return input(w, unread.line),
    };
    if TOO_LONG <= text.len() {
        return input(w, overlong(text));
    }
    printed(w, &lent, sizes);
}

// What genlist prints of a text: all of it, in a buffer of 1,048,576 bytes or more.
pub fn list(text: &[u8], out: &mut [u8]) -> usize
    ensures text { Wrote (genlist_text text.now) out.old 0 out.new result }
    ensures whole { most ≤ length out.old → take result out.new ≡ genlist_text text.now }
    ensures size { most ≤ length out.old → result ≡ length (genlist_text text.now) }
{
    let mut w = Writer { out, at: 0 };
    listed(&mut w, text);
    w.at
}

// The same, into an array that is long enough.
pub fn list_all(text: &[u8], out: &mut [u8; 1048576]) -> usize
    ensures { take result out.new ≡ genlist_text text.now }
{
    list(text, out)
}
