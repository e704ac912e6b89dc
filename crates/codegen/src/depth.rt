// The loop depth of each function's own tree, from that of each record with its later siblings.
ghost use Rattle.std.specs.Prelude.{◌≡◌, ℕ, ◌<◌};
ghost use Rattle.tables.specs.Kinds.{kind_of};
ghost use Rattle.tables.specs.Forest.{own_tree, children};
ghost use Rattle.rules.specs.Out.{loop_depth};
ghost use Rattle.codegen.specs.Depth.{around_of, Roomed, Depths};

use tables::ast;
use tables::kind::Kind;

// The depth of a record of this kind around what is inside it: a loop is one more, a function's inside is its own.
#[tactic(auto, unfolding(crate::specs::Depth::around_of))]
fn around(kind: Kind, inside: u32) -> u32
    requires { inside < 4294967295 }
    ensures { (n : ℕ) → kind ≡ kind_of n → result ≡ around_of n inside }
{
    match kind {
        Kind::Function => 0,
        Kind::Loop | Kind::While | Kind::For => inside + 1,
        _ => inside,
    }
}

// One pass from the last record down: links go forward, so what they lead to is done before.
#[tactic(auto, using(crate::proofs::DepthLaws::first_inside, crate::proofs::DepthLaws::next_inside))]
pub(crate) fn depths(recs: &[u32], table: &mut [u32])
    requires { Roomed recs.now table.old }
    ensures { Depths recs.now table.new }
{
    for r in (1..ast::size(recs)).rev() {
        let own = around(ast::kind(recs, r), table[ast::first(recs, r)]);
        let later = table[ast::next(recs, r)];
        table[r] = own.max(later);
    }
}

// The loop depth of the function at record r.
#[tactic(auto, using(crate::proofs::DepthLaws::first_inside, crate::proofs::DepthLaws::read_deep))]
pub(crate) fn depth(recs: &[u32], table: &[u32], r: usize) -> u32
    requires { Depths recs.now table.now }
    ensures { result ≡ loop_depth (own_tree (children recs.now r)) }
{
    table[ast::first(recs, r)]
}
