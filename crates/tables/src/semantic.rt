// The Rust's semantic.rs as flat tables: strings, symbols, references, functions and their members. Each accessor is total: what is not there is 0.
ghost use Rattle.std.specs.Prelude.{◌≡◌, ◌+◌, ◌^◌, ◌<◌, min, get_or};
ghost use Rattle.tables.specs.Semantic.{pair as pair_of, pairs as pairs_of, string_offset, string_length, text_of};
ghost use Rattle.tables.specs.Semantic.{symbol_kind, symbol_name, symbol_of, parent_of, member_count, share_start, share};

use crate::lent::Tables;
use crate::slices::{front, rest};

// No function, or no name.
pub const NONE: u32 = 0xffff_ffff;

// The sum of the counts is taken wide: up to here, which no table's length reaches.
const WIDE: usize = 0x8000_0000_0000_0000;

// Entry i of a table of one word an entry.
pub fn entry(table: &[u32], i: usize) -> u32
    ensures { result ≡ get_or table.now i 0 }
{
    table.get(i).copied().unwrap_or(0)
}

// Word k of entry i of a table of two words an entry.
fn pair(table: &[u32], i: usize, k: usize) -> u32
    requires { k < 2 }
    ensures { result ≡ pair_of table.now i k }
{
    if i < table.len() {
        entry(table, i * 2 + k)
    } else {
        0
    }
}

// The number of entries of a table of two words an entry.
pub fn pairs(table: &[u32]) -> usize
    ensures { result ≡ pairs_of table.now }
{
    table.len() / 2
}

pub fn string_offset(strings: &[u32], s: usize) -> u32
    ensures { result ≡ string_offset strings.now s }
{
    pair(strings, s, 0)
}

pub fn string_length(strings: &[u32], s: usize) -> u32
    ensures { result ≡ string_length strings.now s }
{
    pair(strings, s, 1)
}

pub fn symbol_kind(symbols: &[u32], s: usize) -> u32
    ensures { result ≡ symbol_kind symbols.now s }
{
    pair(symbols, s, 0)
}

pub fn symbol_name(symbols: &[u32], s: usize) -> u32
    ensures { result ≡ symbol_name symbols.now s }
{
    pair(symbols, s, 1)
}

// The symbol that reference r means.
pub fn symbol_of(references: &[u32], r: usize) -> u32
    ensures { result ≡ symbol_of references.now r }
{
    entry(references, r)
}

pub fn parent(functions: &[u32], f: usize) -> u32
    ensures { result ≡ parent_of functions.now f }
{
    pair(functions, f, 0)
}

pub fn member_count(functions: &[u32], f: usize) -> u32
    ensures { result ≡ member_count functions.now f }
{
    pair(functions, f, 1)
}

// The bytes of string s.
pub fn text<'a>(tables: &Tables<'a>, s: usize) -> &'a [u8]
    ensures { result.now ≡ text_of tables.now.strings.now tables.now.bytes.now s }
{
    let offset = string_offset(tables.strings, s) as usize;
    let size = string_length(tables.strings, s) as usize;
    front(rest(tables.bytes, offset), size)
}

// Byte i of string s.
pub fn byte(tables: &Tables, s: usize, i: usize) -> u8
    ensures { result ≡ get_or (text_of tables.now.strings.now tables.now.bytes.now s) i 0 }
{
    text(tables, s).get(i).copied().unwrap_or(0)
}

// A length with a count added, no more than the limit.
pub fn add_count(n: usize, count: u32, limit: usize) -> usize
    ensures { result ≡ min (n + count) limit }
{
    n.saturating_add(count as usize).min(limit)
}

// Where function f's share of the members starts.
pub fn share_start(functions: &[u32], f: usize) -> usize
    ensures { result ≡ min (share_start functions.now f) (2 ^ 63) }
{
    let mut start: usize = 0;
    for g in 0..f.min(pairs(functions)) {
        start = add_count(start, member_count(functions, g), WIDE);
    }
    start
}

// Member i of function f's share.
pub fn member(functions: &[u32], members: &[u32], f: usize, i: usize) -> u32
    ensures { result ≡ get_or (share functions.now members.now f) i 0 }
{
    let count = member_count(functions, f) as usize;
    if i < count {
        entry(members, share_start(functions, f) + i)
    } else {
        0
    }
}
