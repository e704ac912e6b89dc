// Prints numbers of 64 bits, given in 16 hexadecimal digits a line: in decimal, as an Int, and as a Float's digits.
#![tactic(auto)]

use listing::text::Writer;
use std::io::{Write, writer};

const STDIN_FILENO: i32 = 0;

// The value of the digits among the first eight bytes.
fn word(bytes: &[u8]) -> u32 {
    bytes
        .iter()
        .take(8)
        .fold(0u32, |word, &b| match char::from(b).to_digit(16) {
            Some(digit) => word.wrapping_mul(16) | digit,
            None => word,
        })
}

fn show(rt: &impl Print, high: u32, low: u32) {
    let mut out = [0u8; 64];
    let mut w = Writer {
        out: &mut out,
        at: 0,
    };
    w.number(u64::from(high) << 32 | u64::from(low));
    w.put(b' ');
    w.signed(high, low);
    w.put(b' ');
    w.hex16(high, low);
    w.put(b'\n');
    let end = w.at;
    // a writing that fails is passed over
    let _ = writer(rt).write_all(out.get(..end).unwrap_or(&out));
}

fn main(rt: HostRuntime) {
    let mut text = io::buffer();
    let length = io::read_full(STDIN_FILENO, &mut text);
    for line in text[..length].chunks_exact(17) {
        let (high, low) = line.split_at(8);
        show(&rt, word(high), word(low));
    }
}
