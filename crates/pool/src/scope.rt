// What the making of the names and notes works with: the function whose names are stamped, for each symbol where it was stamped last, and as chains the
// Idents of each function and the functions inside each.
ghost use Rattle.std.specs.Prelude.{◌≡◌};
ghost use Rattle.pool.specs.Scope.{no_scope, index_in, stamped};

use crate::chain::{Chain, OWNERS};

pub const SYMBOLS: usize = 1024;

// The tables of names.
#[derive(Clone, Copy, Debug, PartialEq, Eq)]
pub enum Table {
    Locals,
    Globals,
    Upvalues,
}

// Where a symbol stands among an owner's names.
#[derive(Clone, Copy)]
pub struct Stamp {
    pub owner: u16,
    pub table: Table,
    pub index: u16,
}

#[derive(Clone, Copy)]
pub struct Scope {
    pub owner: u16,
    pub symbols: [Option<Stamp>; SYMBOLS],
    pub idents: Chain<4096>,
    pub inners: Chain<257>,
}

impl Scope {
    // No owner, no symbol that is stamped, and no item in a chain.
    pub fn blank() -> Self
        ensures { result ≡ no_scope }
    {
        Scope {
            owner: 0,
            symbols: [None; SYMBOLS],
            idents: Chain {
                heads: [0; OWNERS],
                nexts: [0; 4096],
            },
            inners: Chain {
                heads: [0; OWNERS],
                nexts: [0; 257],
            },
        }
    }

    // The place of a symbol in a table of the current owner, below 1,024 whatever is stamped.
    #[tactic(auto, unfolding(crate::specs::Scope::index_in))]
    pub fn index_of(&self, table: Table, symbol: u32) -> Option<u32>
        ensures { result ≡ index_in self.now table symbol }
    {
        match self.symbols.get(symbol as usize) {
            Some(Some(stamp)) if stamp.owner == self.owner && stamp.table == table => {
                Some(u32::from(stamp.index % 1024))
            }
            _ => None,
        }
    }

    // The symbol is at this place in a table of the current owner.
    #[tactic(auto, unfolding(crate::specs::Scope::stamped))]
    pub fn stamp(&mut self, table: Table, symbol: u32, index: u16)
        ensures { self.new ≡ stamped self.old table symbol index }
    {
        let s = symbol as usize;
        if s < SYMBOLS {
            self.symbols[s] = Some(Stamp {
                owner: self.owner,
                table,
                index,
            });
        }
    }
}
