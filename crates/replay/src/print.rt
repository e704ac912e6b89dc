// What the programs print alike; no contract can say what is written. A writing that fails is passed over, or told by those that try.
use std::io;
use tables::refusal::Refusal;

// What is written of an input or a case that is none.
pub fn unreadable(rt: &impl Print) {
    let _ = try_unreadable(rt);
}

// The same, telling a writing that fails.
pub fn try_unreadable(rt: &impl Print) -> io::Result<()> {
    println!(rt; "unreadable input")
}

// A refusal's number and place.
pub fn refused(rt: &impl Print, why: Refusal) {
    let _ = try_refused(rt, why);
}

// The same, telling a writing that fails.
pub fn try_refused(rt: &impl Print, why: Refusal) -> io::Result<()> {
    println!(rt; "{} {}", why.number(), why.place())
}
