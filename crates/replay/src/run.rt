// What the programs do alike: each case of the input is shown, one after the other; no contract can say what is written.
use crate::case::{Case, Cases};
use crate::input::{MOST, read, read_to_words};
use crate::print::{try_unreadable, unreadable};
use std::io;
use tables::slices::front;

// A program that only prints, by what it shows of a case.
pub trait PrintCase {
    fn show<R: Print>(&self, rt: &R, case: Case);
}

// The cases of the input by so many numbers each.
pub fn print_each_case<R: Print, S: PrintCase>(rt: &R, numbers: usize, program: &S) {
    let mut words = [0u32; MOST];
    let Some(count) = read(&mut words) else {
        return unreadable(rt);
    };
    for found in Cases::new(front(&words, count), numbers) {
        match found {
            Some(case) => program.show(rt, case),
            None => unreadable(rt),
        }
    }
}

// A program that may take memory and may fail, by what it shows of a case.
pub trait Show {
    fn show<R: Print + AllocGlobal>(&self, rt: &R, case: Case) -> io::Result<()>;
}

// The cases of the input by so many numbers each, with `between` before each but the first; the first failure ends it.
pub fn each_case<R, S>(rt: &R, numbers: usize, between: &str, program: &S) -> io::Result<()>
where
    R: Input + Print + AllocGlobal,
    S: Show,
{
    let Some(words) = read_to_words(rt)? else {
        return try_unreadable(rt);
    };
    for (turn, found) in Cases::new(&words, numbers).enumerate() {
        if 0 < turn {
            print!(rt; "{between}")?;
        }
        match found {
            Some(case) => program.show(rt, case)?,
            None => try_unreadable(rt)?,
        }
    }
    Ok(())
}
