// Effects by value: two Effect or Handler records bring the same constant when name, parameters and variadic agree.
ghost use Rattle.std.specs.Prelude.{◌≡◌};
ghost use Rattle.tables.specs.Forest.{first as first_of, next as next_of};
ghost use Rattle.pool.specs.Value.{same, same_numbers, effect_at};
ghost use Rattle.pool.specs.Consts.{name_at, names_from, names_below, is_variadic};

use tables::ast::{first, flag, kind, next, p, q};
use tables::kind::Kind;

// The name string that an Effect or a Handler gives: an Effect's p, else its Ident's q.
fn effect_name(records: &[u32], r: usize) -> u32
    ensures { result ≡ name_at records.now r }
{
    if kind(records, r) == Kind::Effect {
        return p(records, r);
    }
    let ident = first(records, r);
    if ident == 0 {
        return 0;
    }
    q(records, ident)
}

// The Params of an Effect or a Handler: the second child.
fn params(records: &[u32], r: usize) -> usize
    ensures { result ≡ next_of records.now (first_of records.now r) }
{
    next(records, first(records, r))
}

// Whether the last of the parameters is variadic.
fn variadic(records: &[u32], params: usize) -> bool
    ensures { result ≡ is_variadic records.now params }
{
    params != 0 && flag(records, params)
}

// The first parameter; what is inside a Function is no part of the tree around it.
fn parameter(records: &[u32], params: usize) -> usize
    ensures { names_from records.now result ≡ names_below records.now params }
{
    if params == 0 || kind(records, params) == Kind::Function {
        return 0;
    }
    first(records, params)
}

// Whether two rows of siblings have the same name strings.
fn same_names(records: &[u32], a: usize, b: usize) -> bool
    ensures { result ≡ same_numbers (names_from records.now a) (names_from records.now b) }
{
    let mut x = a;
    let mut y = b;
    while x != 0 {
        if y == 0 || q(records, x) != q(records, y) {
            return false;
        }
        x = next(records, x);
        y = next(records, y);
    }
    y == 0
}

// Whether two records bring the same effect.
pub fn same_effect(records: &[u32], a: usize, b: usize) -> bool
    ensures { result ≡ same (effect_at records.now a) (effect_at records.now b) }
{
    let c = params(records, a);
    let d = params(records, b);
    effect_name(records, a) == effect_name(records, b)
        && variadic(records, c) == variadic(records, d)
        && same_names(records, parameter(records, c), parameter(records, d))
}
