// The lines of a text, one after another.
ghost use Rattle.std.specs.Prelude.{◌≡◌, ℕ, Bool, ◌+◌, ◌≤◌, ◌^◌, length, MatchOption};
ghost use Rattle.listing.specs.Lines.{run, Took, Over};

// The text from its next line on, and that line's number.
#[derive(Clone, Copy)]
pub struct Lines<'a> {
    pub rest: &'a [u8],
    pub number: usize,
    pub ghost numbered: { number + length rest.now ≤ 2 ^ 63 },
}

// A line without its line feed, and its number.
#[derive(Clone, Copy)]
pub struct Line<'a> {
    pub bytes: &'a [u8],
    pub number: usize,
}

// How many bytes at the start pass a test.
pub(crate) fn run<F: Fn(u8) -> bool>(bytes: &[u8], test: F) -> usize
    requires { F.IsAlwaysCallable test }
    ensures value { (p : ℕ → Bool) → ((b : ℕ) (r : Bool) → F.post test b r → r ≡ p b) → result ≡ run p bytes.now }
    ensures bound { result ≤ length bytes.now }
{
    bytes.iter().position(|b| !test(*b)).unwrap_or(bytes.len())
}

impl<'a> Lines<'a> {
    pub fn next_line(&mut self) -> Option<Line<'a>>
        ensures { MatchOption result (Over self.old.rest.now self.old.number self.new.rest.now self.new.number)
            (λ line. Took self.old.rest.now self.old.number line.bytes.now self.new.rest.now self.new.number × (line.number ≡ self.old.number)) }
    {
        if self.rest.is_empty() {
            return None;
        }
        let (bytes, rest) = self.rest.split_at(run(self.rest, |b| b != b'\n'));
        let number = self.number;
        self.rest = rest.get(1..).unwrap_or(rest);
        self.number += 1;
        Some(Line { bytes, number })
    }
}
