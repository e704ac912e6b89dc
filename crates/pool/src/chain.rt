// The items of each owner as chains: an owner's first item, and for each item the next one, which is less; what was chained last comes first, and 0 ends
// a chain. An owner is 0 for none, and f + 1 for function f.
ghost use Rattle.std.specs.Prelude.{◌≡◌, ◌≤◌};
ghost use Rattle.pool.specs.Chain.{first_of, next_of, chained};

pub const OWNERS: usize = 257;

#[derive(Clone, Copy)]
pub struct Chain<const N: usize> {
    pub heads: [u16; OWNERS],
    pub nexts: [u16; N],
}

impl<const N: usize> Chain<N> {
    // The owner's first item.
    #[tactic(auto, unfolding(crate::specs::Chain::first_of))]
    pub fn first(&self, owner: u16) -> usize
        ensures { result ≡ first_of self.now owner }
    {
        self.heads[owner as usize % OWNERS] as usize
    }

    // The item after this one.
    #[tactic(auto, unfolding(crate::specs::Chain::next_of))]
    pub fn next(&self, item: usize) -> usize
        ensures { result ≡ next_of self.now item }
    {
        if item < N {
            let to = self.nexts[item] as usize;
            if to < item { to } else { 0 }
        } else {
            0
        }
    }

    // The item becomes the first of its owner's chain.
    #[tactic(auto, unfolding(crate::specs::Chain::chained))]
    pub(crate) fn push(&mut self, owner: usize, item: usize)
        requires { N ≤ 4096 }
        ensures { self.new ≡ chained self.old owner item }
    {
        if item < N {
            let o = owner % OWNERS;
            self.nexts[item] = self.heads[o];
            self.heads[o] = item as u16;
        }
    }
}
