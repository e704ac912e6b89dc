// How many siblings there are, and which.
ghost use Rattle.std.specs.Prelude.{◌≡◌, ◌-◌};
ghost use Rattle.std.specs.Iterator.{YieldsFirst, item_count};
ghost use Rattle.tables.specs.Forest.{forest, own_tree};
ghost use Rattle.rules.specs.Step.{width as width_of};
ghost use Rattle.context.specs.Does.{nth as nth_of};
ghost use Rattle.plain.specs.Siblings.{numbers, left};

use tables::ast::next;

// The siblings from a record on.
#[derive(Drop)]
pub struct Siblings<'a> {
    records: &'a [u32],
    at: usize,
}

impl<'a> Siblings<'a> {
    // From the record c on.
    pub fn new(records: &'a [u32], c: usize) -> Self
        ensures { left result ≡ numbers (forest records.now c) }
    {
        Siblings { records, at: c }
    }
}

impl Iterator for Siblings<'_> {
    type Item = usize;

    ghost remaining = { item_count left };

    ghost next_gives = { YieldsFirst left };

    fn next(&mut self) -> Option<usize> {
        if self.at == 0 {
            return None;
        }
        let sibling = self.at;
        self.at = next(self.records, sibling);
        Some(sibling)
    }
}

// The number of siblings from the record c on.
pub fn width(recs: &[u32], c: usize) -> usize
    ensures { result ≡ width_of (own_tree (forest recs.now c)) }
{
    Siblings::new(recs, c).count()
}

// The n-th sibling of the record c, 0 where there is none.
pub fn nth(recs: &[u32], c: usize, n: usize) -> usize
    ensures { result ≡ nth_of recs.now n c }
{
    let mut at = c;
    for _ in 0..n {
        if at == 0 {
            return 0;
        }
        at = next(recs, at);
    }
    at
}

// The last sibling from the record c on.
pub fn last(recs: &[u32], c: usize) -> usize
    ensures { result ≡ nth_of recs.now (width_of (own_tree (forest recs.now c)) - 1) c }
{
    Siblings::new(recs, c).last().unwrap_or(0)
}
