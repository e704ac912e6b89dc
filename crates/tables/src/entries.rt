// Row 3: the entries of tables 1 to 6 in turn.
ghost use Rattle.std.specs.Prelude.{◌≡◌};
ghost use Rattle.tables.specs.Entries.{symbol_bad, symbols_broken, reference_bad, references_broken, parent_bad, parents_broken, counts_broken, entries_broken};

use crate::kind::SymbolKind;
use crate::lent::Tables;
use crate::members::members_broken;
use crate::semantic::{NONE, pairs, parent, share_start, symbol_kind, symbol_name, symbol_of};
use crate::strings::strings_broken;

// A kind that is neither Local nor Global, or no such name string.
#[tactic(auto, unfolding(crate::specs::Entries::symbol_bad))]
fn symbol_bad(strings: &[u32], symbols: &[u32], s: usize) -> bool
    ensures { result ≡ symbol_bad strings.now symbols.now s }
{
    SymbolKind::try_from(symbol_kind(symbols, s)).is_err()
        || pairs(strings) <= symbol_name(symbols, s) as usize
}

fn symbols_broken(strings: &[u32], symbols: &[u32]) -> Option<usize>
    ensures { result ≡ symbols_broken strings.now symbols.now }
{
    (0..pairs(symbols)).find(|&s| symbol_bad(strings, symbols, s))
}

#[tactic(auto, unfolding(crate::specs::Entries::reference_bad))]
fn reference_bad(symbols: &[u32], references: &[u32], r: usize) -> bool
    ensures { result ≡ reference_bad symbols.now references.now r }
{
    pairs(symbols) <= symbol_of(references, r) as usize
}

fn references_broken(symbols: &[u32], references: &[u32]) -> Option<usize>
    ensures { result ≡ references_broken symbols.now references.now }
{
    (0..references.len()).find(|&r| reference_bad(symbols, references, r))
}

// A parent that is neither none nor a function.
#[tactic(auto, unfolding(crate::specs::Entries::parent_bad))]
fn parent_bad(functions: &[u32], f: usize) -> bool
    ensures { result ≡ parent_bad functions.now f }
{
    let p = parent(functions, f);
    p != NONE && pairs(functions) <= p as usize
}

fn parents_broken(functions: &[u32]) -> Option<usize>
    ensures { result ≡ parents_broken functions.now }
{
    (0..pairs(functions)).find(|&f| parent_bad(functions, f))
}

// The counts sum to the members, or the place is the function count.
fn counts_broken(functions: &[u32], members: &[u32]) -> Option<usize>
    ensures { result ≡ counts_broken functions.now members.now }
{
    let n = pairs(functions);
    let sum = share_start(functions, n);
    (sum != members.len()).then_some(n)
}

// The first broken entry of tables 1 to 6, in turn.
pub fn entries(tables: &Tables) -> Option<usize>
    ensures { result ≡ entries_broken tables.now.strings.now tables.now.bytes.now tables.now.symbols.now
        tables.now.references.now tables.now.functions.now tables.now.members.now }
{
    strings_broken(tables)
        .or_else(|| symbols_broken(tables.strings, tables.symbols))
        .or_else(|| references_broken(tables.symbols, tables.references))
        .or_else(|| parents_broken(tables.functions))
        .or_else(|| counts_broken(tables.functions, tables.members))
        .or_else(|| members_broken(tables.symbols, tables.functions, tables.members))
}
