// genlist: the text of the tables on standard input; its listing, refusal or `input` on standard output.
#![tactic(auto)]

use lister::list::list_all;
use std::io::{Write, writer};

const STDIN_FILENO: i32 = 0;

fn main(rt: HostRuntime) {
    let mut text = [0u8; 262144];
    let mut out = [0u8; 1048576];
    // a reading that fails ends the text
    let length = io::read_full(STDIN_FILENO, &mut text);
    let printed = list_all(&text[..length], &mut out);
    let listing = out.get(..printed).unwrap_or(&out);
    if writer(&rt).write_all(listing).is_err() {
        // nor is there another place to say so
        let _ = eprintln!(rt; "genlist: standard output failed; what it has is not whole");
    }
}
