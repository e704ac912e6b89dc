// What the listing program prints: the listing of an accepted answer, a refusal, or the line of a text that cannot be read.
ghost use Rattle.std.specs.Prelude.{◌≡◌, ℕ, List, ◌+◌, ◌*◌, ◌/◌, ◌≤◌, ◌<◌, min, drop, get_or, length};
ghost use Rattle.std.specs.Borrow.{MutBor};
ghost use Rattle.listing.specs.declared.text.Writer.{Writer};
ghost use Rattle.tables.specs.Record.{word, size as size_of};
ghost use Rattle.listing.specs.Print.{after, rows_from, beginning, takes_of, has_operand, operand_text, code_at, const_name, const_value, const_at};
ghost use Rattle.listing.specs.Print.{plain_at, capture_name, upvalue_at, is_function, record_of, function_kind, optional, last_param, idents};
ghost use Rattle.listing.specs.Print.{params as params_text, head_row, loops_row, names_text, function_text, functions_text};
ghost use Rattle.listing.specs.Print.{error_name, error_row, error_rows, listing_text, refusal_text, input_text};
ghost use Rattle.listing.specs.Kinds.{value_text, line_of};

use crate::kinds::{Capture, ConstKind, ErrorKind, function_name};
use crate::text::Writer;
use opcode::opcode::OperandKind;
use opcode::tables::operand_kind;
use tables::ast::{first, flag, function_kind, kind, next, p, q, size};
use tables::kind::Kind;
use tables::semantic::{NONE, entry, symbol_name};
use tables::slices;

// What a listing is printed from: two of the tables, and what the call wrote.
#[derive(Clone, Copy)]
pub struct Source<'a> {
    pub symbols: &'a [u32],
    pub records: &'a [u32],
    pub markers: &'a [u32],
    pub constants: &'a [u32],
    pub names: &'a [u32],
    pub errors: &'a [u32],
    pub lines: &'a [u32],
}

// A row's function, section and place.
#[tactic(auto, using(crate::proofs::WriterLaws::after_append), unfolding(crate::specs::Print::beginning))]
fn begin(w: &mut Writer, function: u64, section: &[u8], place: u32)
    ensures { w.new ≡ after (beginning function section.now place) w.old }
{
    w.number(function);
    w.put(b' ');
    w.text(section);
    w.put(b' ');
    w.number(u64::from(place));
    w.put(b' ');
}

// A code without an operand has `-`.
#[tactic(auto, unfolding(crate::specs::Print::operand_text))]
fn put_operand(w: &mut Writer, code: u32, operand: u32)
    ensures { w.new ≡ after (operand_text code operand) w.old }
{
    match operand_kind(code) {
        None | Some(OperandKind::None) => w.put(b'-'),
        Some(_) => w.number(u64::from(operand)),
    }
}

// A row for each of so many entries.
fn rows<F: Fn(&mut Writer, u32)>(w: &mut Writer, count: u32, row: F)
    requires { F.IsAlwaysCallable row }
    ensures { (text : ℕ → List ℕ) → ((i : ℕ) (u v : MutBor Writer) → F.post row u i tt v → v.now ≡ after (text i) u.now)
        → w.new ≡ after (rows_from text count 0) w.old }
{
    for i in 0..count {
        row(w, i);
    }
}

// A marker, of two words.
#[tactic(auto, using(crate::proofs::WriterLaws::after_append), unfolding(crate::specs::Print::code_row))]
fn code_row(w: &mut Writer, function: u64, place: u32, markers: &[u32])
    ensures { w.new ≡ after (code_at function markers.now place) w.old }
{
    let j = place as usize * 2;
    let code = entry(markers, j);
    begin(w, function, b"code", place);
    w.name(code);
    w.put(b' ');
    put_operand(w, code, entry(markers, j + 1));
    w.text(b" -\n");
}

// "`-` for Null and Yield, Int signed, Float 16 small hexadecimal digits, else its first word"
fn const_value(w: &mut Writer, kind: ConstKind, low: u32, high: u32)
    ensures { w.new ≡ after (value_text kind low high) w.old }
{
    match kind {
        ConstKind::Null | ConstKind::Yield => w.put(b'-'),
        ConstKind::Int => w.signed(high, low),
        ConstKind::Float => w.hex16(high, low),
        _ => w.number(u64::from(low)),
    }
}

// A constant, of three words.
#[tactic(auto, using(crate::proofs::WriterLaws::after_append, crate::proofs::KindLaws::const_named, crate::proofs::KindLaws::valued), unfolding(crate::specs::Print::const_row))]
fn const_row(w: &mut Writer, function: u64, place: u32, constants: &[u32])
    ensures { w.new ≡ after (const_at function constants.now place) w.old }
{
    let j = place as usize * 3;
    let kind = ConstKind::from(entry(constants, j));
    begin(w, function, b"const", place);
    w.text(kind.name());
    w.put(b' ');
    const_value(w, kind, entry(constants, j + 1), entry(constants, j + 2));
    w.text(b" -\n");
}

// A local or a global, of three words: its name and its symbol.
#[tactic(auto, using(crate::proofs::WriterLaws::after_append), unfolding(crate::specs::Print::plain_row))]
fn plain_row(
    w: &mut Writer,
    function: u64,
    section: &[u8],
    place: u32,
    symbols: &[u32],
    names: &[u32],
)
    ensures { w.new ≡ after (plain_at function section.now symbols.now names.now place) w.old }
{
    let symbol = entry(names, place as usize * 3);
    begin(w, function, section, place);
    w.number(u64::from(symbol_name(symbols, symbol as usize)));
    w.text(b" - ");
    w.number(u64::from(symbol));
    w.put(b'\n');
}

// An upvalue, of three words.
#[tactic(auto, using(crate::proofs::WriterLaws::after_append, crate::proofs::KindLaws::capture_named), unfolding(crate::specs::Print::upvalue_row))]
fn upvalue_row(w: &mut Writer, function: u64, place: u32, names: &[u32])
    ensures { w.new ≡ after (upvalue_at function names.now place) w.old }
{
    let j = place as usize * 3;
    begin(w, function, b"upvalue", place);
    w.text(Capture::from(entry(names, j + 1)).name());
    w.put(b' ');
    w.number(u64::from(entry(names, j + 2)));
    w.put(b' ');
    w.number(u64::from(entry(names, j)));
    w.put(b'\n');
}

// Whether record r is function n's.
#[tactic(auto, unfolding(crate::specs::Print::is_function))]
fn is_function(recs: &[u32], r: usize, n: u64) -> bool
    ensures { result ≡ is_function recs.now n r }
{
    kind(recs, r) == Kind::Function && u64::from(p(recs, r)) == n
}

// Function n's record, 0 where there is none.
fn record_of(recs: &[u32], n: u64) -> usize
    ensures { result ≡ record_of recs.now n }
{
    (0..size(recs))
        .find(|&r| is_function(recs, r, n))
        .unwrap_or(0)
}

// A function's name string: none has `-`.
#[tactic(auto, unfolding(crate::specs::Print::optional))]
fn put_optional(w: &mut Writer, string: u32)
    ensures { w.new ≡ after (optional string) w.old }
{
    if string == NONE {
        w.put(b'-');
    } else {
        w.number(u64::from(string));
    }
}

// "`*` before the variadic", which is the last.
#[tactic(auto, using(crate::proofs::WriterLaws::after_cons), unfolding(crate::specs::Print::last_param))]
fn last_param(w: &mut Writer, recs: &[u32], list: usize, string: u32)
    ensures { w.new ≡ after (last_param (word recs.now list 1) string) w.old }
{
    if flag(recs, list) {
        w.put(b'*');
    }
    w.number(u64::from(string));
}

// The name strings of the Idents from record `from` on, with commas.
fn put_idents(w: &mut Writer, recs: &[u32], list: usize, from: usize)
    ensures { w.new ≡ after (idents (size_of recs.now) recs.now (word recs.now list 1) from) w.old }
{
    let mut r = from;
    for _ in 0..size(recs) {
        let string = q(recs, r);
        r = next(recs, r);
        if r == 0 {
            return last_param(w, recs, list, string);
        }
        w.number(u64::from(string));
        w.put(b',');
    }
}

// The parameters of the Params record: none has `-`.
fn params(w: &mut Writer, recs: &[u32], list: usize)
    ensures { w.new ≡ after (params_text recs.now list) w.old }
{
    let i = first(recs, list);
    if i == 0 {
        w.put(b'-');
    } else {
        put_idents(w, recs, list, i);
    }
}

#[tactic(auto, using(crate::proofs::WriterLaws::after_append, crate::proofs::KindLaws::function_named), unfolding(crate::specs::Print::head_at))]
fn head_row(w: &mut Writer, function: u64, recs: &[u32])
    ensures { w.new ≡ after (head_row function recs.now) w.old }
{
    let r = record_of(recs, function);
    begin(w, function, b"head", 0);
    w.text(function_name(function_kind(recs, r)));
    w.put(b' ');
    put_optional(w, q(recs, r));
    w.put(b' ');
    params(w, recs, first(recs, r));
    w.put(b'\n');
}

#[tactic(auto, using(crate::proofs::WriterLaws::after_append), unfolding(crate::specs::Print::loops_row))]
fn loops_row(w: &mut Writer, function: u64, depth: u32)
    ensures { w.new ≡ after (loops_row function depth) w.old }
{
    begin(w, function, b"head", 1);
    w.text(b"Loops ");
    w.number(u64::from(depth));
    w.text(b" -\n");
}

// A function's line: how many markers, constants and names are its own, and how deep its loops go.
#[derive(Clone, Copy)]
struct Line {
    markers: u32,
    constants: u32,
    locals: u32,
    globals: u32,
    upvalues: u32,
    depth: u32,
}

impl From<&[u32]> for Line {
    ghost from_gives = { λ words l. l ≡ line_of words.now };

    fn from(words: &[u32]) -> Self {
        Line {
            markers: entry(words, 0),
            constants: entry(words, 2),
            locals: entry(words, 3),
            globals: entry(words, 4),
            upvalues: entry(words, 5),
            depth: entry(words, 6),
        }
    }
}

// A function's names: its locals, globals and upvalues.
fn names_rows(w: &mut Writer, function: u64, symbols: &[u32], names: &[u32], l: Line)
    ensures { w.new ≡ after (names_text function symbols.now names.now l.locals l.globals l.upvalues) w.old }
{
    rows(
        w,
        l.locals,
        |w, i| plain_row(w, function, b"local", i, symbols, names),
    );
    let left = slices::rest(names, l.locals as usize * 3);
    rows(
        w,
        l.globals,
        |w, i| plain_row(w, function, b"global", i, symbols, left),
    );
    let last = slices::rest(left, l.globals as usize * 3);
    rows(w, l.upvalues, |w, i| upvalue_row(w, function, i, last));
}

// A function's rows, from its line's, markers', constants' and names' first words on.
fn function_rows(w: &mut Writer, function: u64, s: &Source)
    ensures { w.new ≡ after (function_text function s.now.symbols.now s.now.records.now s.now.lines.now
        s.now.markers.now s.now.constants.now s.now.names.now) w.old }
{
    let l = Line::from(s.lines);
    head_row(w, function, s.records);
    loops_row(w, function, l.depth);
    rows(w, l.markers, |w, i| code_row(w, function, i, s.markers));
    rows(
        w,
        l.constants,
        |w, i| const_row(w, function, i, s.constants),
    );
    names_rows(w, function, s.symbols, s.names, l);
}

// What is left after the words of a function.
fn rest<'a>(s: &Source<'a>) -> Source<'a>
    ensures symbols { result.symbols.now ≡ s.now.symbols.now }
    ensures records { result.records.now ≡ s.now.records.now }
    ensures lines { result.lines.now ≡ drop 7 s.now.lines.now }
    ensures markers { result.markers.now ≡ drop (get_or s.now.lines.now 0 0 * 2) s.now.markers.now }
    ensures constants { result.constants.now ≡ drop (get_or s.now.lines.now 2 0 * 3) s.now.constants.now }
    ensures names { result.names.now ≡ drop ((get_or s.now.lines.now 3 0 + get_or s.now.lines.now 4 0
        + get_or s.now.lines.now 5 0) * 3) s.now.names.now }
{
    let l = Line::from(s.lines);
    let named = l.locals as usize + l.globals as usize + l.upvalues as usize;
    Source {
        lines: slices::rest(s.lines, 7),
        markers: slices::rest(s.markers, l.markers as usize * 2),
        constants: slices::rest(s.constants, l.constants as usize * 3),
        names: slices::rest(s.names, named * 3),
        ..*s
    }
}

// The rows of the functions met, in order of their numbers.
fn functions_rows(w: &mut Writer, s: &Source, count: usize)
    ensures { w.new ≡ after (functions_text count 0 s.now.symbols.now s.now.records.now s.now.lines.now
        s.now.markers.now s.now.constants.now s.now.names.now) w.old }
{
    let mut left = *s;
    for f in 0..count {
        function_rows(w, f as u64, &left);
        left = rest(&left);
    }
}

fn error_row(w: &mut Writer, place: usize, kind: u32, start: u32, end: u32)
    ensures { w.new ≡ after (error_row place kind start end) w.old }
{
    w.text(b"- error ");
    w.number(place as u64);
    w.put(b' ');
    w.text(ErrorKind::from(kind).name());
    w.put(b' ');
    w.number(u64::from(start));
    w.put(b' ');
    w.number(u64::from(end));
    w.put(b'\n');
}

#[tactic(auto, using(crate::proofs::WriterLaws::after_rows, crate::proofs::WriterLaws::after_no_rows))]
fn error_rows(w: &mut Writer, errors: &[u32], count: usize)
    requires { count * 3 ≤ length errors.now }
    ensures { w.new ≡ after (error_rows errors.now count) w.old }
{
    for i in 0..count {
        let j = i * 3;
        error_row(
            w,
            i,
            entry(errors, j),
            entry(errors, j + 1),
            entry(errors, j + 2),
        );
    }
}

// How many whole entries there are in so many words, at most `most`: counted off, since nothing that prints divides.
fn entries(words: usize, width: usize, most: usize) -> usize
    requires { 0 < width }
    ensures { result ≡ min most (words / width) }
{
    let mut left = words;
    for count in 0..most {
        if left < width {
            return count;
        }
        left -= width;
    }
    most
}

// The listing of an accepted answer that told so many lines and errors: no more of them than there are words.
pub fn listing(w: &mut Writer, s: &Source, met: usize, told: usize)
    ensures { w.new ≡ after (listing_text s.now.symbols.now s.now.records.now s.now.markers.now
        s.now.constants.now s.now.names.now s.now.errors.now s.now.lines.now met told) w.old }
{
    w.text(b"function section place word value more\n");
    functions_rows(w, s, entries(s.lines.len(), 7, met));
    error_rows(w, s.errors, entries(s.errors.len(), 3, told));
}

// "A refusal prints the line `refusal place`, then one with the two values."
pub fn refusal(w: &mut Writer, which: u32, place: usize)
    ensures { w.new ≡ after (refusal_text which place) w.old }
{
    w.text(b"refusal place\n");
    w.number(u64::from(which));
    w.put(b' ');
    w.number(place as u64);
    w.put(b'\n');
}

// "gives `input` and the line number"
#[tactic(auto, using(crate::proofs::WriterLaws::after_append, crate::proofs::WriterLaws::after_cons), unfolding(crate::specs::Print::input_text))]
pub fn input(w: &mut Writer, line: usize)
    ensures { w.new ≡ after (input_text line) w.old }
{
    w.text(b"input ");
    w.number(line as u64);
    w.put(b'\n');
}
