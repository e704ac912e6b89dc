// Row 8: nesting of at most 128 levels.
ghost use Rattle.std.specs.Prelude.{◌≡◌, ◌+◌, ◌<◌, ◌≤◌};
ghost use Rattle.tables.specs.Record.{size as size_of};
ghost use Rattle.tables.specs.Naming.{Joined};
ghost use Rattle.tables.specs.Nesting.{nesting as nesting_of};

use crate::{ast, scratch};

// The deepest level that is accepted.
const LEVELS: u16 = 128;

pub fn nesting(recs: &[u32]) -> Option<usize>
    ensures { size_of recs.now ≤ 4096 → Joined recs.now → result ≡ nesting_of recs.now }
{
    let n = ast::size(recs);
    if 4096 < n {
        return None;
    }
    // 129 stands for any deeper level.
    let levels = scratch::handed_down(recs, 1, |_, level| level.saturating_add(1).min(LEVELS + 1));
    (0..n).find(|&r| LEVELS < levels[r])
}
