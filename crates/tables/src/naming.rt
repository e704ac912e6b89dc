// Row 7: every record but 0 is named by exactly one link.
ghost use Rattle.std.specs.Prelude.{◌≡◌, ℕ, ◌+◌, ◌<◌, ◌≤◌, min, length, get_or, set};
ghost use Rattle.tables.specs.Record.{size as size_of};
ghost use Rattle.tables.specs.Naming.{named, naming as naming_of};

use crate::ast;

// Counts one more link to a record, 2 standing for any more than that.
fn note(counts: &mut [u8; 4096], link: u32)
    ensures { length counts.old ≡ 4096 → counts.new ≡ set counts.old link (min 2 (get_or counts.old link 0 + 1)) }
{
    let x = link as usize;
    if x < counts.len() {
        counts[x] = counts[x].saturating_add(1).min(2);
    }
}

// How many links name each record, 2 standing for more.
fn counted(recs: &[u32]) -> [u8; 4096]
    ensures { (x : ℕ) → x < 4096 → get_or result x 0 ≡ min 2 (named recs.now x) }
{
    let mut counts = [0u8; 4096];
    for r in 0..ast::size(recs) {
        note(&mut counts, ast::first_word(recs, r));
        note(&mut counts, ast::next_word(recs, r));
    }
    counts
}

pub fn naming(recs: &[u32]) -> Option<usize>
    ensures { size_of recs.now ≤ 4096 → result ≡ naming_of recs.now }
{
    let n = ast::size(recs);
    if 4096 < n {
        return None;
    }
    let counts = counted(recs);
    (1..n).find(|&r| counts[r] != 1)
}
