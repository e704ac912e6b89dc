// Replays cases of the checks: for each case of the input seven lengths and the words of tables 1 to 7, answered by `ok` or a refusal's number and place.
#![tactic(auto)]

use replay::case::{Case, narrow};
use replay::print::{refused, unreadable};
use replay::run::{PrintCase, print_each_case};
use tables::check::check;
use tables::refusal::Refusal;
use tables::slices::front;

// A case has so many numbers before its tables.
const NUMBERS: usize = 7;

// Room for the bytes of table 2.
const BYTES: usize = 65544;

fn answer(rt: &impl Print, checked: Result<(), Refusal>) {
    match checked {
        Ok(()) => {
            // a writing that fails is passed over
            let _ = println!(rt; "ok");
        }
        Err(why) => refused(rt, why),
    }
}

#[derive(Clone, Copy)]
struct Checks;

impl PrintCase for Checks {
    fn show<R: Print>(&self, rt: &R, case: Case) {
        let mut bytes = [0u8; BYTES];
        let words = case.table(1);
        if narrow(words, &mut bytes) {
            let checked = check(&case.tables(front(&bytes, words.len())));
            answer(rt, checked);
        } else {
            unreadable(rt);
        }
    }
}

fn main(rt: HostRuntime) {
    print_each_case(&rt, NUMBERS, &Checks);
}
