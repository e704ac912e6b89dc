// Replays texts through genlist's work, one after another between lines `====`: prints the answer to each, with the same line between.
#![tactic(auto)]

use lister::list::list_all;
use std::io::{Write, writer};

const STDIN_FILENO: i32 = 0;

// A writing that fails is passed over, here and below.
fn show(rt: &impl Print, text: &[u8]) {
    let mut out = [0u8; 1048576];
    let printed = list_all(text, &mut out);
    let _ = writer(rt).write_all(out.get(..printed).unwrap_or(&out));
}

// Whether these five bytes end a text.
fn is_cut(bytes: &[u8]) -> bool {
    matches!(bytes, [b'=', _, _, b'=', b'\n'])
}

fn replay(rt: &impl Print, text: &[u8]) {
    let mut from = 0usize;
    for (at, bytes) in text.windows(5).enumerate() {
        if is_cut(bytes) {
            show(rt, text.get(from..at).unwrap_or(&[]));
            let _ = println!(rt; "====");
            from = at.saturating_add(5);
        }
    }
    show(rt, text.get(from..).unwrap_or(&[]));
}

// A text of that length, whose proof need not look at it.
fn blank() -> [u8; 1048576] {
    [0u8; 1048576]
}

fn main(rt: HostRuntime) {
    let mut text = blank();
    let length = io::read_full(STDIN_FILENO, &mut text);
    replay(&rt, &text[..length]);
}
