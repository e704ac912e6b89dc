// Replays genlist's texts, one after another between lines `====`: prints the line that can't be read, or the words of the tables.
#![tactic(auto)]

use listing::read::{Lent, read};
use std::fmt::Display;

const STDIN_FILENO: i32 = 0;

// The items that a table holds, with a space behind each. A writing that fails is passed over, here and below.
fn print_items<T: Display>(rt: &impl Print, items: &[T], count: usize) {
    for item in items.iter().take(count) {
        let _ = print!(rt; "{item} ");
    }
    let _ = println!(rt);
}

fn show(rt: &impl Print, text: &[u8]) {
    let mut strings = [0u32; 280];
    let mut bytes = [0u8; 4096];
    let mut symbols = [0u32; 280];
    let mut references = [0u32; 140];
    let mut functions = [0u32; 280];
    let mut members = [0u32; 140];
    let mut records = [0u32; 1120];
    let mut lent = Lent {
        strings: &mut strings,
        bytes: &mut bytes,
        symbols: &mut symbols,
        references: &mut references,
        functions: &mut functions,
        members: &mut members,
        records: &mut records,
    };
    match read(text, &mut lent) {
        Err(unread) => {
            let _ = println!(rt; "input {}", unread.line);
        }
        Ok(s) => {
            print_items(rt, &strings, s.strings);
            print_items(rt, &bytes, s.bytes);
            print_items(rt, &symbols, s.symbols);
            print_items(rt, &references, s.references);
            print_items(rt, &functions, s.functions);
            print_items(rt, &members, s.members);
            print_items(rt, &records, s.records);
        }
    }
}

// Whether these five bytes end a text.
fn is_cut(bytes: &[u8]) -> bool {
    matches!(bytes, [b'=', _, _, b'=', b'\n'])
}

fn replay(rt: &impl Print, text: &[u8]) {
    let mut from = 0usize;
    for (at, bytes) in text.windows(5).enumerate() {
        if is_cut(bytes) {
            show(rt, text.get(from..at).unwrap_or(&[]));
            from = at.saturating_add(5);
        }
    }
    show(rt, text.get(from..).unwrap_or(&[]));
}

fn main(rt: HostRuntime) {
    let mut text = io::large_buffer();
    let length = io::read_full(STDIN_FILENO, &mut text);
    replay(&rt, &text[..length]);
}
