// Tables in lent words, some words to an entry.
ghost use Rattle.std.specs.Prelude.{◌≡◌};
ghost use Rattle.pool.specs.Entries.{has_room, put_entry};

// The N words of entry n; answers whether there was room for them.
#[tactic(auto, using(crate::proofs::PutLaws::put_part))]
pub fn put<const N: usize>(words: &mut [u32], n: usize, entry: [u32; N]) -> bool
    ensures room { result ≡ has_room words.old n N }
    ensures words { words.new ≡ put_entry words.old n entry.entry }
{
    let from = n.saturating_mul(N);
    let to = from.saturating_add(N);
    if to <= words.len() {
        words[from..to].copy_from_slice(&entry);
        return true;
    }
    false
}
