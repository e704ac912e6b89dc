// Prints what the crate answers at every number from 0 to 53. `python3 tools/opcode_stdout.py DIR` made `stdout` from the
// text of the Rust in DIR: `opcode.rs`, `codegen.rs`, `ast/operator.rs` and `ast/member.rs`.
#![tactic(auto)]

mod sample;

use opcode::member::MemberKind;
use opcode::opcode::{OpCode, Words};
use opcode::operator::{BinOp, UnOp};
use opcode::tables::{is_target, name, operand_kind};
use std::fmt::Display;
use std::io;

// An answer, or `-` where there is none.
fn field<T: Display + Drop>(rt: &impl Print, answer: Option<T>) -> io::Result<()> {
    match answer {
        Some(x) => print!(rt; " {x}"),
        None => print!(rt; " -"),
    }
}

// The kind's own name in the enum.
fn kind(rt: &impl Print, n: u32) -> io::Result<()> {
    match operand_kind(n) {
        Some(kind) => print!(rt; " {kind:?}"),
        None => field::<u32>(rt, None),
    }
}

fn yes_or_no(target: bool) -> &'static str {
    if target { "yes" } else { "no" }
}

fn code(op: OpCode) -> u32 {
    Words::from(op).code
}

fn words(rt: &impl Print, n: u32) -> io::Result<()> {
    let words = sample::marker(n).map(Words::from);
    field(rt, words.map(|w| w.code))?;
    field(rt, words.map(|w| w.operand))
}

fn operators(rt: &impl Print, n: u32) -> io::Result<()> {
    let binary = BinOp::try_from(n).ok();
    let unary = UnOp::try_from(n).ok();
    field(
        rt,
        binary.and_then(|op| OpCode::try_from(op).ok()).map(code),
    )?;
    field(rt, unary.map(|op| code(op.into())))
}

fn member(rt: &impl Print, n: u32) -> io::Result<()> {
    let kind = MemberKind::try_from(n).ok();
    field(rt, kind.map(|k| code(k.get_opcode())))?;
    field(rt, kind.map(|k| code(k.set_opcode())))
}

fn row(rt: &impl Print, n: u32) -> io::Result<()> {
    print!(rt; "{n}")?;
    field(rt, name(n))?;
    kind(rt, n)?;
    field(rt, is_target(n).map(yes_or_no))?;
    words(rt, n)?;
    operators(rt, n)?;
    member(rt, n)?;
    println!(rt)
}

fn rows(rt: &impl Print) -> io::Result<()> {
    println!(rt; "number name kind target code operand binary unary get set")?;
    for n in 0..54 {
        row(rt, n)?;
    }
    Ok(())
}

fn main(rt: HostRuntime) {
    // a writing that fails is passed over
    let _ = rows(&rt);
}
