// Where each function's names stand: its first entry, and how many are locals, then globals, then upvalues.
ghost use Rattle.std.specs.Prelude.{◌≡◌, set};
ghost use Rattle.pool.specs.NameWords.{span_of};

#[derive(Clone, Copy, Debug, Default, PartialEq, Eq)]
pub struct Span {
    pub start: u32,
    pub locals: u32,
    pub globals: u32,
    pub upvalues: u32,
}

// The span of function f, without names where there is none.
pub fn span_of(spans: &[Span], f: usize) -> Span
    ensures { result ≡ span_of spans.now f }
{
    spans.get(f).copied().unwrap_or_default()
}

// The span of function f is written, if it has room.
pub fn put_span(spans: &mut [Span], f: usize, span: Span)
    ensures { spans.new ≡ set spans.old f span }
{
    if f < spans.len() {
        spans[f] = span;
    }
}
