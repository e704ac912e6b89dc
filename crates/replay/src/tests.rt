// What takes memory, or tells a failure, does so: no clause says that it succeeds, or what is written.
use crate::case::{Case, narrowed};
use crate::input::{read_to_words, words};
use crate::print::{try_refused, try_unreadable};
use crate::run::{Show, each_case};
use std::alloc::{Alloc, Allocator, Global};
use std::cell::Cell;
use std::fmt::Display;
use std::io;
use std::io::{BufRead, ErrorKind, Lines};
use std::test::Fail;
use tables::refusal::Refusal;

// A runtime whose input is a text, and at which any other writing than the expected one fails.
#[derive(Drop)]
struct Script<'a> {
    alloc: Global,
    input: &'a [u8],
    expected: Cell<&'a [u8]>,
}

impl<'a> Script<'a> {
    fn new(alloc: Global, input: &'a str, expected: &'a str) -> Self {
        Script {
            alloc,
            input: input.as_bytes(),
            expected: Cell::new(expected.as_bytes()),
        }
    }
}

impl<'a> Alloc for Script<'a> {
    type A = Global;

    fn alloc(&self) -> Global {
        self.alloc
    }
}

impl<'a> Input for Script<'a> {
    type Reader = &'a [u8];

    fn read_line<A: Allocator + Clone>(&self, buf: &mut String<A>) -> io::Result<usize> {
        self.reader().read_line(buf)
    }

    fn lines<A: Allocator>(&self, alloc: A) -> Lines<&'a [u8], A> {
        self.reader().lines(alloc)
    }

    fn reader(&self) -> &'a [u8] {
        self.input
    }
}

impl<'a> Print for Script<'a> {
    fn print<D: Display + Drop>(&self, value: D) -> io::Result<()> {
        let text = format!(in self.alloc; "{value}")?;
        self.write_all(text.as_bytes())
    }

    fn println<D: Display + Drop>(&self, value: D) -> io::Result<()> {
        self.print(value)?;
        self.write_all(b"\n")
    }

    fn write_all(&self, bytes: &[u8]) -> io::Result<()> {
        let Some(left) = self.expected.get().strip_prefix(bytes) else {
            return Err(ErrorKind::WriteZero.into());
        };
        self.expected.set(left);
        Ok(())
    }
}

#[test]
fn words_become_bytes(rt: HostRuntime) -> Result<(), Fail> {
    for (words, room, fit) in [
        ([0, 255, 7].as_slice(), 3, true),
        ([].as_slice(), 0, true),
        ([0, 255, 7].as_slice(), 2, false),
        ([0, 256, 7].as_slice(), 3, false),
    ] {
        let bytes = narrowed(rt.alloc(), words, room)?;
        assert_eq!(rt; bytes.is_some(), fit, "{words:?} in {room}");
        if let Some(bytes) = bytes {
            assert!(rt;
                bytes
                    .iter()
                    .copied()
                    .map(u32::from)
                    .eq(words.iter().copied())
            );
        }
    }
    Ok(())
}

#[test]
fn texts_become_words(rt: HostRuntime) -> Result<(), Fail> {
    for (text, want) in [
        ("", Some([].as_slice())),
        ("0 7\n4294967295", Some([0, 7, 4294967295].as_slice())),
        (" \n12  3\n", Some([12, 3].as_slice())),
        ("4294967296", None),
        ("1,2", None),
        ("-1", None),
        ("+1", None),
        ("1\t2", None),
    ] {
        let found = words(rt.alloc(), text)?;
        assert_eq!(rt;
            found.as_ref().map(|words| words.as_slice()),
            want,
            "{text}"
        );
        let script = Script::new(rt.alloc(), text, "");
        assert_eq!(rt; read_to_words(&script)?, found, "{text}");
    }
    Ok(())
}

// Prints the words of a case's first table.
#[derive(Clone, Copy)]
struct FirstTable;

impl Show for FirstTable {
    fn show<R: Print + AllocGlobal>(&self, rt: &R, case: Case) -> io::Result<()> {
        println!(rt; "{:?}", case.table(0))
    }
}

#[test]
fn cases_are_shown(rt: HostRuntime) -> Result<(), Fail> {
    let cases = "1 0 0 0 0 0 0 5 0 0 0 0 0 0 0 2 0 0 0 0 0 0 8";
    for (input, expected, whole) in [
        ("", "", true),
        ("five", "unreadable input\n", true),
        (cases, "[5]\n--\n[]\n--\nunreadable input\n", true),
        (cases, "[5]\n--\n", false),
        (cases, "[5]\n", false),
    ] {
        let script = Script::new(rt.alloc(), input, expected);
        assert_eq!(rt; each_case(&script, 7, "--\n", &FirstTable).is_ok(), whole);
        assert!(rt; script.expected.get().is_empty());
    }
    Ok(())
}

#[test]
fn failures_are_told(rt: HostRuntime) -> Result<(), Fail> {
    let why = Refusal::Entry(7);
    let script = Script::new(rt.alloc(), "", "unreadable input\n3 7\n");
    try_unreadable(&script)?;
    try_refused(&script, why)?;
    assert!(rt; try_unreadable(&script).is_err());
    assert!(rt; try_refused(&script, why).is_err());
    Ok(())
}
