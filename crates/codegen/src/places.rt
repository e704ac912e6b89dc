// The record of each function, by its number.
ghost use Rattle.std.specs.Prelude.{length};
ghost use Rattle.codegen.specs.Places.{Numbered, Places};

use tables::ast;
use tables::kind::Kind;

// One pass over the records.
pub(crate) fn places(recs: &[u32], table: &mut [u32])
    requires { Numbered recs.now (length table.old) }
    ensures { Places recs.now table.new }
{
    let n = ast::size(recs);
    for r in 0..n {
        if ast::kind(recs, r) == Kind::Function {
            let number = ast::p(recs, r) as usize;
            table[number] = r as u32;
        }
    }
}
