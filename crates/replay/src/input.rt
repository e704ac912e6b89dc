// The words of a program's input: decimal numbers with a space or the end of a line between. They come into lent words, or into memory of their own.
ghost use Rattle.std.specs.Prelude.{◌≤◌, IfOk, IfSome, length, vec_len};

use std::alloc::{AllocError, Global};

// More words are no input.
pub(crate) const MOST: usize = 458752;

const STDIN_FILENO: i32 = 0;

// So many readings, of which the last is to be empty: a longer input is none.
const READINGS: usize = 32;

// What was read so far: how many words, the number that is begun if one is, and whether all could be read.
#[derive(Clone, Copy)]
struct Scan {
    count: usize,
    number: Option<u64>,
    good: bool,
}

impl Scan {
    // A number, if one is begun, ends here.
    fn ended(self, words: &mut [u32]) -> Self {
        let Some(number) = self.number else {
            return self;
        };
        let (Ok(word), Some(place)) = (u32::try_from(number), words.get_mut(self.count)) else {
            return Scan {
                number: None,
                good: false,
                ..self
            };
        };
        *place = word;
        Scan {
            count: self.count.saturating_add(1),
            number: None,
            ..self
        }
    }

    fn with_byte(self, b: u8, words: &mut [u32]) -> Self {
        if let Some(digit) = char::from(b).to_digit(10) {
            let tens = self.number.unwrap_or(0).saturating_mul(10);
            return Scan {
                number: Some(tens.saturating_add(u64::from(digit))),
                ..self
            };
        }
        if b == b' ' || b == b'\n' {
            return self.ended(words);
        }
        Scan {
            good: false,
            ..self
        }
    }
}

// One more reading: what was read with it, and how long it was.
fn more(scan: Scan, words: &mut [u32]) -> (Scan, usize) {
    let mut text = io::large_buffer();
    let length = io::read_full(STDIN_FILENO, &mut text);
    let mut scan = scan;
    for &b in &text[..length] {
        scan = scan.with_byte(b, words);
    }
    (scan, length)
}

// The words of the whole input, from the front of the lent ones: how many, if it has nothing else and they find room.
// Which they are no contract can say.
pub fn read(words: &mut [u32]) -> Option<usize>
    ensures { IfSome result (λ count. count ≤ length words.old) }
{
    let mut scan = Scan {
        count: 0,
        number: None,
        good: true,
    };
    let mut last = 0usize;
    for _ in 0..READINGS {
        (scan, last) = more(scan, words);
    }
    let scan = scan.ended(words);
    (scan.good && last == 0 && scan.count <= words.len()).then_some(scan.count)
}

fn is_of_words(text: &str) -> bool {
    text.bytes()
        .all(|b| b.is_ascii_digit() || b == b' ' || b == b'\n')
}

// The numbers of a text in memory of their own, if it has nothing else, each is a word, and they are not too many.
pub fn words(alloc: Global, text: &str) -> Result<Option<Vec<u32>>, AllocError>
    ensures { IfOk result (λ found. IfSome found (λ words. vec_len words ≤ MOST)) }
{
    let mut words = Vec::new(alloc);
    if !is_of_words(text) {
        return Ok(None);
    }
    for number in text.split_ascii_whitespace() {
        let Ok(word) = number.parse::<u32>() else {
            return Ok(None);
        };
        words.push(word)?;
    }
    Ok((words.len() <= MOST).then_some(words))
}

// The words of all that the runtime's reader gives; which they are no contract can say.
pub fn read_to_words(rt: &(impl Input + AllocGlobal)) -> std::io::Result<Option<Vec<u32>>>
    ensures { IfOk result (λ found. IfSome found (λ words. vec_len words ≤ MOST)) }
{
    let text = std::io::read_to_string(rt.alloc(), rt.reader())?;
    Ok(words(rt.alloc(), text.as_str())?)
}
