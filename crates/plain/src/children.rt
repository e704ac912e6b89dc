// What the visitors know of a record's children before they visit them.
ghost use Rattle.std.specs.Prelude.{◌≡◌, ◌-◌};
ghost use Rattle.tables.specs.Forest.{forest, own_tree};
ghost use Rattle.pool.specs.Value.{child as words_at, below};
ghost use Rattle.rules.specs.Step.{width as width_of};
ghost use Rattle.rules.specs.Arms.{arguments as arguments_of, is_tail};
ghost use Rattle.context.specs.Words.{cap};
ghost use Rattle.context.specs.Does.{child as child_of};
ghost use Rattle.plain.specs.Runs.{argument_count};

use crate::member::is_method;
use crate::siblings::{Siblings, nth, width};
use context::word::capped;
use tables::ast::{first, kind, next, q};
use tables::kind::Kind;

// arguments.len(), a trailing lambda with them: the siblings from the record c on that stand before the first Handler.
pub fn arguments_len(recs: &[u32], c: usize) -> usize
    ensures { result ≡ arguments_of (own_tree (forest recs.now c)) }
{
    Siblings::new(recs, c)
        .take_while(|&at| kind(recs, at) != Kind::Handler)
        .count()
}

// What a Call with n arguments counts: one more where the callee hands its table on.
pub fn argument_count(recs: &[u32], callee: usize, n: usize) -> u32
    ensures { result ≡ cap (argument_count recs.now callee n) }
{
    let count = capped(n);
    if callee == 0 {
        return count;
    }
    if is_method(recs, callee) {
        return count.saturating_add(1);
    }
    count
}

// Whether a Return's argument is a Call without Handlers.
pub fn is_tail(recs: &[u32], argument: usize) -> bool
    ensures { result ≡ is_tail (own_tree (forest recs.now argument)) }
{
    if argument == 0 {
        return false;
    }
    if kind(recs, argument) != Kind::Call {
        return false;
    }
    let callee = first(recs, argument);
    let arguments = next(recs, callee);
    let n = arguments_len(recs, arguments);
    nth(recs, arguments, n) == 0
}

// The first child of the record c; an absent record has none, and a Function's are no part of the tree around it.
pub fn first_child(recs: &[u32], c: usize) -> usize
    ensures { result ≡ child_of recs.now c 0 }
{
    if c == 0 {
        return 0;
    }
    if kind(recs, c) == Kind::Function {
        return 0;
    }
    first(recs, c)
}

// The name string of an Ident, 0 where it is absent.
pub fn name_of(recs: &[u32], ident: usize) -> u32
    ensures { result ≡ (words_at (own_tree (forest recs.now ident)) 0).q }
{
    if ident == 0 { 0 } else { q(recs, ident) }
}

// params.len() and one for a variadic.
pub fn params_len(recs: &[u32], params: usize) -> u32
    ensures { result ≡ cap (width_of (below (own_tree (forest recs.now params)) 0)) }
{
    let first = first_child(recs, params);
    capped(width(recs, first))
}
