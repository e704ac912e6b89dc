// A pass over the records, into an array of one entry for each that a table can have.
ghost use Rattle.std.specs.Prelude.{ℕ, ◌<◌, ◌≤◌};
ghost use Rattle.tables.specs.Record.{size as size_of};
ghost use Rattle.tables.specs.Naming.{Joined};
ghost use Rattle.tables.specs.Scratch.{Handed, Computes};

use crate::ast;

// Values handed along the links: record 0 has `top`, a first child what `down` makes of its parent and the parent's value, a sibling the same as its elder.
pub(crate) fn handed_down<F: Fn(usize, u16) -> u16>(recs: &[u32], top: u16, down: F) -> [u16; 4096]
    requires small { size_of recs.now ≤ 4096 }
    requires callable { (r v : ℕ) → r < 4096 → F.pre down r v }
    ensures { (f : ℕ → ℕ → ℕ) → Computes (F.post down) f → Joined recs.now
        → Handed f recs.now top (size_of recs.now) result }
{
    let mut a = [0u16; 4096];
    a[0] = top;
    for r in 0..ast::size(recs) {
        let v = a[r];
        let child = ast::first(recs, r);
        if child != 0 {
            a[child] = down(r, v);
        }
        let sibling = ast::next(recs, r);
        if sibling != 0 {
            a[sibling] = v;
        }
    }
    a
}
