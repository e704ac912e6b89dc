// The names of the functions met: they stand in front of the others'.
ghost use Rattle.std.specs.Prelude.{◌≡◌, ◌<◌, ◌≤◌, length, take};
ghost use Rattle.pool.specs.NameWords.{over};
ghost use Rattle.codegen.specs.Names.{name_count};

use pool::spans::{Span, span_of};

// How many words of names the first n functions have.
fn count(spans: &[Span], n: usize) -> usize
    requires { 0 < n }
    ensures { result ≡ name_count spans.now n }
{
    let s = span_of(spans, n - 1);
    (s.start as usize + s.locals as usize + s.globals as usize + s.upvalues as usize) * 3
}

// The names of the first n functions.
pub(crate) fn name_words(entries: &[u32], spans: &[Span], names: &mut [u32], n: usize)
    requires some { 0 < n }
    requires within { name_count spans.now n ≤ length entries.now }
    requires room { name_count spans.now n ≤ length names.old }
    ensures { names.new ≡ over (take (name_count spans.now n) entries.now) names.old }
{
    let words = count(spans, n);
    names[..words].copy_from_slice(&entries[..words]);
}
