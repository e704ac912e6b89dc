// Row 3, table 1: each string lies inside the bytes and equals no earlier one.
ghost use Rattle.std.specs.Prelude.{◌≡◌, ℕ, ◌+◌, ◌<◌};
ghost use Rattle.tables.specs.Entries.{same_list, same_string, equal_earlier, string_bad, strings_broken};
ghost use Rattle.tables.specs.Seen.{mixed as mixed_of, hash as hash_of, hash_at, bucket as bucket_of, Chained};

use crate::lent::Tables;
use crate::semantic::{pairs, string_length, string_offset, text};

#[tactic(auto, unfolding(crate::specs::Entries::same_string))]
pub fn same_string(tables: &Tables, i: usize, j: usize) -> bool
    ensures { result ≡ same_string tables.now.strings.now tables.now.bytes.now i j }
{
    text(tables, i) == text(tables, j)
}

// A hash with one byte more.
fn mixed(h: u32, x: u8) -> u32
    ensures { result ≡ mixed_of h x }
{
    h.wrapping_mul(16777619).wrapping_add(u32::from(x))
}

fn hash(a: &[u8]) -> u32
    ensures { result ≡ hash_of 0 a.now }
{
    a.iter().fold(0, |h, &x| mixed(h, x))
}

#[tactic(auto, unfolding(crate::specs::Seen::hash_at))]
fn string_hash(tables: &Tables, s: usize) -> u32
    ensures { result ≡ hash_at tables.now.strings.now tables.now.bytes.now s }
{
    hash(text(tables, s))
}

// A prime number of buckets, so that every bit of the hash counts.
fn bucket(h: u32) -> usize
    ensures { result ≡ bucket_of h }
{
    (h % 1021) as usize
}

// A string by its number, with its hash.
#[derive(Clone, Copy)]
struct Hashed<'t, 'a> {
    tables: &'t Tables<'a>,
    number: usize,
    hash: u32,
    ghost hashed: { hash ≡ hash_at tables.now.strings.now tables.now.bytes.now number },
}

impl Hashed<'_, '_> {
    // Whether string e, of hash g, is the same: strings of other hashes are not compared.
    fn equals(&self, e: usize, g: u32) -> bool
        ensures { let t = self.now.tables.now in g ≡ hash_at t.strings.now t.bytes.now e
            → result ≡ same_string t.strings.now t.bytes.now e self.now.number }
    {
        g == self.hash && same_string(self.tables, e, self.number)
    }

    fn equals_earlier(&self) -> bool
        ensures { let t = self.now.tables.now in result ≡ equal_earlier t.strings.now t.bytes.now self.now.number }
    {
        (0..self.number).any(|e| same_string(self.tables, e, self.number))
    }

    // Past the 1,024 strings that the chains hold, which row 1 does not let through, each earlier string is compared.
    #[tactic(auto, unfolding(crate::specs::Entries::string_bad))]
    fn is_bad(&self, chains: &Chains) -> bool
        requires chained { let t = self.now.tables.now in self.now.number < 1024
            → Chained (hash_at t.strings.now t.bytes.now) chains.now self.now.number }
        ensures { let t = self.now.tables.now in result ≡ string_bad t.strings.now t.bytes.now self.now.number }
    {
        let strings = self.tables.strings;
        let end = string_offset(strings, self.number) as usize
            + string_length(strings, self.number) as usize;
        if self.tables.bytes.len() < end {
            true
        } else if self.number < 1024 {
            chains.hold(self)
        } else {
            self.equals_earlier()
        }
    }
}

// A string in the chain of its bucket: its hash, and the string before it there. Numbers in the chains are one more than the string's, 0 for none.
#[derive(Clone, Copy)]
struct Link {
    hash: u32,
    next: u16,
}

// The strings that were gone through, by the buckets of their hashes: a link for each string, and the newest string of each bucket.
#[derive(Drop)]
struct Chains {
    links: [Link; 1024],
    heads: [u16; 1024],
}

impl Chains {
    fn new() -> Self
        ensures { (key : ℕ → ℕ) → Chained key result 0 }
    {
        Chains {
            links: [Link { hash: 0, next: 0 }; 1024],
            heads: [0; 1024],
        }
    }

    // Goes along the chain of the string's bucket, from the newest string to the oldest.
    fn hold(&self, string: &Hashed) -> bool
        requires inside { string.now.number < 1024 }
        requires chained { let t = string.now.tables.now in Chained (hash_at t.strings.now t.bytes.now) self.now string.now.number }
        ensures { let t = string.now.tables.now in result ≡ equal_earlier t.strings.now t.bytes.now string.now.number }
    {
        let mut c = self.heads[bucket(string.hash)];
        while 0 < c {
            let e = c as usize - 1;
            let link = self.links[e];
            if string.equals(e, link.hash) {
                return true;
            }
            c = link.next;
        }
        false
    }

    // Puts the string at the head of its bucket's chain.
    fn add(&mut self, string: &Hashed)
        ensures { let t = string.now.tables.now in string.now.number < 1024 → Chained (hash_at t.strings.now t.bytes.now) self.old string.now.number
            → Chained (hash_at t.strings.now t.bytes.now) self.new (string.now.number + 1) }
    {
        let s = string.number;
        if s < 1024 {
            let b = bucket(string.hash);
            self.links[s] = Link {
                hash: string.hash,
                next: self.heads[b],
            };
            self.heads[b] = s as u16 + 1;
        }
    }
}

pub fn strings_broken(tables: &Tables) -> Option<usize>
    ensures { result ≡ strings_broken tables.now.strings.now tables.now.bytes.now }
{
    let mut chains = Chains::new();
    for s in 0..pairs(tables.strings) {
        let string = Hashed {
            tables,
            number: s,
            hash: string_hash(tables, s),
        };
        if string.is_bad(&chains) {
            return Some(s);
        }
        chains.add(&string);
    }
    None
}
