// Row 2: the lent outputs by their lengths alone.
ghost use Rattle.std.specs.Prelude.{◌≡◌, ◌<◌};
ghost use Rattle.codegen.specs.Space.{scarce as scarce_of, space_in};

use crate::outputs::Outputs;
use tables::ast::size;
use tables::lent::{Tables, first};
use tables::semantic::pairs;

// Whether the words have room for fewer whole entries than so many for each of n.
fn scarce(each: usize, width: usize, n: usize, words: usize) -> bool
    requires each_nonzero { 0 < each }
    requires width_nonzero { 0 < width }
    ensures { result ≡ scarce_of each width n words }
{
    words / width / each < n
}

// The first output, by its number, that is too small for the tables.
#[tactic(auto, unfolding(crate::specs::Space::space_broken))]
pub(crate) fn space(tables: &Tables, outputs: &Outputs) -> Option<usize>
    ensures { result ≡ space_in tables.now outputs.now }
{
    let n = size(tables.records);
    first(&[
        scarce(32, 2, n, outputs.markers.len()),
        scarce(3, 3, n, outputs.constants.len()),
        scarce(1, 3, tables.members.len(), outputs.names.len()),
        scarce(1, 3, n, outputs.errors.len()),
        scarce(1, 7, pairs(tables.functions), outputs.lines.len()),
    ])
}
