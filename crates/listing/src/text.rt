// Bytes, words and numbers into a lent buffer. Where the buffer is full nothing is written and the place stays.
ghost use Rattle.std.specs.Prelude.{[], ◌∷◌, ◌≡◌, ◌*◌, ◌<◌};
ghost use Rattle.opcode.specs.Names.{name as name_text};
ghost use Rattle.listing.specs.Print.{after, decimal, Powers, Wide, Leads, hex_digit, hex_digits, joined as joined_of, float, int};

use opcode::tables;

// "powers of ten from a fixed list of twenty" (document 02, job 7)
const POWERS: [u64; 20] = [
    1,
    10,
    100,
    1000,
    10000,
    100000,
    1000000,
    10000000,
    100000000,
    1000000000,
    10000000000,
    100000000000,
    1000000000000,
    10000000000000,
    100000000000000,
    1000000000000000,
    10000000000000000,
    100000000000000000,
    1000000000000000000,
    10000000000000000000,
];

// Handed out once a number: a constant array is built anew wherever it is named.
fn powers() -> [u64; 20]
    ensures { Powers result }
{
    POWERS
}

// How many digits n has: as many as there are powers up to it, and 0 has one.
fn width(n: u64, powers: &[u64; 20]) -> usize
    requires { Powers powers.now }
    ensures { Wide n result }
{
    powers
        .iter()
        .position(|&power| n < power)
        .unwrap_or(powers.len())
        .max(1)
}

// A number's first digit, and what is left of it.
#[derive(Clone, Copy)]
struct Lead {
    digit: u8,
    rest: u64,
}

// The power is subtracted as often as it goes.
fn leading(n: u64, power: u64) -> Lead
    requires { n < 10 * power }
    ensures { Leads n power result.digit result.rest }
{
    let mut digit: u8 = 0;
    let mut rest = n;
    while power <= rest {
        rest -= power;
        digit += 1;
    }
    Lead { digit, rest }
}

fn hex_digit(n: u64) -> u8
    ensures { result ≡ hex_digit n }
{
    let d = (n & 15) as u8;
    if d < 10 { b'0' + d } else { b'a' + d - 10 }
}

fn joined(high: u32, low: u32) -> u64
    ensures { result ≡ joined_of high low }
{
    (high as u64) << 32 | low as u64
}

// Numbers below it have one digit.
const TEN: u64 = 10;

// A buffer, and the place where the next byte goes.
#[derive(Drop)]
pub struct Writer<'a> {
    pub out: &'a mut [u8],
    pub at: usize,
}

impl Writer<'_> {
    pub fn put(&mut self, b: u8)
        ensures { self.new ≡ after (b ∷ []) self.old }
    {
        let at = self.at;
        if at < self.out.len() {
            self.out[at] = b;
            self.at = at + 1;
        }
    }

    #[tactic(auto, using(crate::proofs::WriterLaws::after_take, crate::proofs::WriterLaws::after_nil))]
    pub fn text(&mut self, bytes: &[u8])
        ensures { self.new ≡ after bytes.now self.old }
    {
        // A writer of its own, so that the place is not read again for each byte.
        let mut w = Writer {
            out: &mut *self.out,
            at: self.at,
        };
        for b in bytes {
            w.put(*b);
        }
        self.at = w.at;
    }

    // The name of a code; nothing past the last one.
    pub fn name(&mut self, code: u32)
        ensures { self.new ≡ after (name_text code) self.old }
    {
        let name = tables::name(code).unwrap_or("");
        self.text(name.as_bytes())
    }

    // Any number, from its first digit on.
    fn long(&mut self, n: u64)
        ensures { self.new ≡ after (decimal n) self.old }
    {
        let list = powers();
        let mut rest = n;
        for &power in list[..width(n, &list)].iter().rev() {
            let l = leading(rest, power);
            self.put(b'0' + l.digit);
            rest = l.rest;
        }
    }

    // Most numbers of a listing have one digit, and need no list.
    pub fn number(&mut self, n: u64)
        ensures { self.new ≡ after (decimal n) self.old }
    {
        if n < TEN {
            self.put(b'0' + n as u8);
        } else {
            self.long(n);
        }
    }

    // The last `count` hexadecimal digits.
    fn hex(&mut self, n: u64, count: u32)
        ensures { self.new ≡ after (hex_digits count n) self.old }
    {
        if count == 0 {
            return;
        }
        self.hex(n >> 4, count - 1);
        self.put(hex_digit(n));
    }

    // "Float 16 small hexadecimal digits"
    pub fn hex16(&mut self, high: u32, low: u32)
        ensures { self.new ≡ after (float high low) self.old }
    {
        self.hex(joined(high, low), 16);
    }

    // "Int signed"
    pub fn signed(&mut self, high: u32, low: u32)
        ensures { self.new ≡ after (int high low) self.old }
    {
        let n = joined(high, low).cast_signed();
        if n < 0 {
            self.put(b'-');
        }
        self.number(n.unsigned_abs());
    }
}
