// Row 3, table 6: each function's share of the members, in turn.
ghost use Rattle.std.specs.Prelude.{◌≡◌, ℕ, ◌+◌, ◌-◌, ◌<◌, ◌≤◌};
ghost use Rattle.std.specs.Prelude.{None};
ghost use Rattle.tables.specs.Place.{broken_from};
ghost use Rattle.tables.specs.Entries.{twice as twice_of, member_bad, members_broken};
ghost use Rattle.tables.specs.Seen.{symbol_at, Stamped};

use crate::semantic::{add_count, entry, member_count, pairs};

// The symbol at m stands earlier in its share.
fn twice(members: &[u32], start: usize, m: usize) -> bool
    ensures { result ≡ twice_of members.now start m }
{
    let symbol = entry(members, m);
    (start..m).any(|e| entry(members, e) == symbol)
}

// The same by the stamps of what stands before m, one more than the last place of each symbol; row 1 lets through no more than 1,024 of either.
fn stamped_twice(members: &[u32], seen: &[u16; 1024], start: usize, symbol: usize, m: usize) -> bool
    requires known { symbol ≡ symbol_at members.now m }
    requires stamped { (m < 1024 → Stamped (symbol_at members.now) seen.now m) }
    ensures { result ≡ twice_of members.now start m }
{
    if m < 1024 && symbol < 1024 {
        return start < seen[symbol] as usize;
    }
    twice(members, start, m)
}

#[tactic(auto, unfolding(crate::specs::Entries::member_bad))]
fn member_bad(symbols: &[u32], members: &[u32], seen: &[u16; 1024], start: usize, m: usize) -> bool
    requires { m < 1024 → Stamped (symbol_at members.now) seen.now m }
    ensures { result ≡ member_bad symbols.now members.now start m }
{
    let symbol = entry(members, m) as usize;
    pairs(symbols) <= symbol || stamped_twice(members, seen, start, symbol, m)
}

// Notes that the symbol stands at m.
fn stamp(seen: &mut [u16; 1024], symbol: usize, m: usize)
    ensures { (key : ℕ → ℕ) → m < 1024 → symbol ≡ key m → Stamped key seen.old m → Stamped key seen.new (m + 1) }
{
    if m < 1024 && symbol < 1024 {
        seen[symbol] = m as u16 + 1;
    }
}

// One share, the members from `start` up to `end`.
fn share_broken(
    symbols: &[u32],
    members: &[u32],
    seen: &mut [u16; 1024],
    start: usize,
    end: usize,
) -> Option<usize>
    requires { start < 1024 → Stamped (symbol_at members.now) seen.old start }
    ensures value { result ≡ broken_from (member_bad symbols.now members.now start) start (end - start) }
    ensures stamped { result ≡ None → start ≤ end → end < 1024 → Stamped (symbol_at members.now) seen.new end }
{
    for m in start..end {
        if member_bad(symbols, members, seen, start, m) {
            return Some(m);
        }
        stamp(seen, entry(members, m) as usize, m);
    }
    None
}

// The shares in turn, then what the counts leave over.
pub fn members_broken(symbols: &[u32], functions: &[u32], members: &[u32]) -> Option<usize>
    ensures { result ≡ members_broken symbols.now functions.now members.now }
{
    let mut seen = [0u16; 1024];
    let mut start: usize = 0;
    for f in 0..pairs(functions) {
        let end = add_count(start, member_count(functions, f), members.len());
        if let Some(m) = share_broken(symbols, members, &mut seen, start, end) {
            return Some(m);
        }
        start = end;
    }
    share_broken(symbols, members, &mut seen, start, members.len())
}
