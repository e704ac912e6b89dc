// Replays cases of the name tables: for each case of the input seven lengths and the words of tables 1 to 7, written back as each function's names.
#![tactic(auto)]

ghost use Rattle.std.specs.Prelude.{◌≤◌, length};

use pool::resolve::resolve;
use pool::spans::{Span, span_of};
use replay::case::Case;
use tables::lent::Tables;
use tables::semantic::{entry, pairs};
use tables::slices::{front, rest};

// A case has so many numbers before its tables.
const NUMBERS: usize = 7;

const STDIN_FILENO: i32 = 0;

// The number with one digit more; 0 where no word holds it.
fn longer(number: u32, digit: u32) -> u32 {
    number
        .checked_mul(10)
        .and_then(|tens| tens.checked_add(digit))
        .unwrap_or(0)
}

// The numbers of the text, whatever stands between them, as many as the words hold; answers how many.
fn numbers(text: &[u8], words: &mut [u32]) -> usize
    ensures { result ≤ length words.new }
{
    let mut count = 0usize;
    let mut number: Option<u32> = None;
    for &b in text {
        if let Some(digit) = char::from(b).to_digit(10) {
            number = Some(longer(number.unwrap_or(0), digit));
        } else if let Some(word) = number.take() {
            count = kept(words, count, word);
        }
    }
    if let Some(word) = number {
        count = kept(words, count, word);
    }
    count.min(words.len())
}

// One word more, if there is room.
fn kept(words: &mut [u32], count: usize, word: u32) -> usize {
    match words.get_mut(count) {
        Some(place) => {
            *place = word;
            count.saturating_add(1)
        }
        None => count,
    }
}

// Table k + 1 of a case, none where it is not whole.
fn whole<'a>(case: Case<'a>, k: usize) -> &'a [u32] {
    let table = case.table(k);
    if table.len() == case.number(k) {
        table
    } else {
        &[]
    }
}

// A writing that fails is passed over, here and below.
fn print_function(rt: &impl Print, entries: &[u32], spans: &[Span], f: usize) {
    let s = span_of(spans, f);
    let _ = println!(rt; "{f}: {} {} {}", s.locals, s.globals, s.upvalues);
    let count = s.locals as usize + s.globals as usize + s.upvalues as usize;
    let names = front(rest(entries, s.start as usize * 3), count * 3);
    let (names, _) = names.as_chunks::<3>();
    for [symbol, capture, index] in names {
        let _ = println!(rt; "{symbol} {capture} {index}");
    }
}

fn show(rt: &impl Print, case: Case) {
    let mut entries = [0u32; 256];
    let mut spans = [Span::default(); 32];
    let mut notes = [0u32; pool::notes::SIZE];
    // names are made of symbols, not of strings
    let tables = Tables {
        strings: &[],
        bytes: &[],
        symbols: whole(case, 2),
        references: whole(case, 3),
        functions: whole(case, 4),
        members: whole(case, 5),
        records: whole(case, 6),
    };
    resolve(&tables, &mut entries, &mut spans, &mut notes);
    for f in 0..pairs(tables.functions) {
        print_function(rt, &entries, &spans, f);
    }
}

fn replay(rt: &impl Print, words: &[u32]) {
    let mut left = words;
    for turn in 0..words.len() {
        if left.is_empty() {
            return;
        }
        if 0 < turn {
            let _ = println!(rt);
        }
        let case = Case {
            words: left,
            numbers: NUMBERS,
        };
        show(rt, case);
        left = rest(left, case.start(7));
    }
}

fn main(rt: HostRuntime) {
    let mut text = io::large_buffer();
    let mut words = [0u32; 32768];
    let length = io::read_full(STDIN_FILENO, &mut text);
    let count = numbers(&text[..length], &mut words);
    replay(&rt, front(&words, count));
}
