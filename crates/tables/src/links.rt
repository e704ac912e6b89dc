// Row 5: the links of each record.
ghost use Rattle.std.specs.Prelude.{◌≡◌};
ghost use Rattle.tables.specs.Record.{size as size_of};
ghost use Rattle.tables.specs.Place.{broken};
ghost use Rattle.tables.specs.Links.{right_link, right_links, wrong_links};

use crate::ast::{first_word, next_word, size};

// Link l of record r among n records.
fn right_link(r: usize, n: usize, l: usize) -> bool
    ensures { result ≡ right_link r n l }
{
    l == 0 || (r < l && l < n)
}

#[tactic(auto, unfolding(crate::specs::Links::right_links))]
fn right_links(recs: &[u32], r: usize) -> bool
    ensures { result ≡ right_links recs.now r }
{
    let n = size(recs);
    right_link(r, n, first_word(recs, r) as usize) && right_link(r, n, next_word(recs, r) as usize)
}

// The first record with a link that is neither 0 nor forward and inside the table.
pub fn links(recs: &[u32]) -> Option<usize>
    ensures { result ≡ broken (wrong_links recs.now) (size_of recs.now) }
{
    (0..size(recs)).find(|&r| !right_links(recs, r))
}
