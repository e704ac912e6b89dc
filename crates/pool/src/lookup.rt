// What a load or a store finds in the names that are stamped: the Rust's load and store. A load's searches are taken apart by let else, as document 01 has it.
ghost use Rattle.std.specs.Prelude.{◌≡◌, eqb};
ghost use Rattle.tables.specs.Semantic.{symbol_kind};
ghost use Rattle.pool.specs.Scope.{index_in};
ghost use Rattle.pool.specs.declared.scope.Table.TheVariants.{Locals, Globals, Upvalues};
ghost use Rattle.pool.specs.Lookups.{local_at, global_at, upvalue_at, symbol_in, load_in, store_in, load_found, store_found};
ghost use Rattle.pool.specs.NameWords.{access_of};

use crate::scope::{Scope, Table};
use opcode::index::{GlobalNameId, LocalNameId, UpvalueNameId};
use tables::kind::SymbolKind;
use tables::lent::Tables;
use tables::refusal::RunRule;
use tables::semantic::symbol_kind;

// What a load or a store comes to.
#[derive(Clone, Copy, Debug, PartialEq, Eq)]
pub enum Access {
    Local(LocalNameId),
    Global(GlobalNameId),
    Upvalue(UpvalueNameId),
}

// local_names().get_index_of(symbol)
pub fn find_local(scope: &Scope, symbol: u32) -> Option<LocalNameId>
    ensures { local_at result ≡ index_in scope.now Locals symbol }
{
    scope.index_of(Table::Locals, symbol).map(LocalNameId)
}

// global_names().get_index_of(symbol)
pub fn find_global(scope: &Scope, symbol: u32) -> Option<GlobalNameId>
    ensures { global_at result ≡ index_in scope.now Globals symbol }
{
    scope.index_of(Table::Globals, symbol).map(GlobalNameId)
}

// upvalue_names().get_index_of(symbol)
pub fn find_upvalue(scope: &Scope, symbol: u32) -> Option<UpvalueNameId>
    ensures { upvalue_at result ≡ index_in scope.now Upvalues symbol }
{
    scope.index_of(Table::Upvalues, symbol).map(UpvalueNameId)
}

// The symbol of a reference, or the rule that one out of range breaks.
fn symbol_in(references: &[u32], reference: u32) -> Result<u32, RunRule>
    ensures { result ≡ symbol_in references.now reference }
{
    references
        .get(reference as usize)
        .copied()
        .ok_or(RunRule::Reference)
}

// A symbol of no kind is not Global.
pub fn is_global(symbols: &[u32], symbol: u32) -> bool
    ensures { result ≡ eqb (symbol_kind symbols.now symbol) 1 }
{
    SymbolKind::try_from(symbol_kind(symbols, symbol as usize)) == Ok(SymbolKind::Global)
}

// What a symbol is looked up in: the lent tables, and an owner's names as they are stamped.
#[derive(Clone, Copy)]
pub struct Lookup<'a> {
    pub tables: &'a Tables<'a>,
    pub scope: &'a Scope,
}

impl Lookup<'_> {
    ghost use Rattle.pool.specs.Names.{else_upvalue, global_or};

    // A global, or the rule that is broken where it is not one.
    fn global(&self, symbol: u32, absent: RunRule) -> Result<Access, RunRule>
        ensures { access_of result ≡ global_or absent (index_in self.now.scope.now Globals symbol) }
    {
        let Some(id) = find_global(self.scope, symbol) else {
            return Err(absent);
        };
        Ok(Access::Global(id))
    }

    fn load_upvalue(&self, symbol: u32) -> Result<Access, RunRule>
        ensures { access_of result ≡ else_upvalue (index_in self.now.scope.now Upvalues symbol) (index_in self.now.scope.now Globals symbol) }
    {
        let Some(id) = find_upvalue(self.scope, symbol) else {
            return self.global(symbol, RunRule::Load);
        };
        Ok(Access::Upvalue(id))
    }

    fn load_symbol(&self, symbol: u32) -> Result<Access, RunRule>
        ensures { access_of result ≡ load_found self.now.scope.now symbol }
    {
        let Some(id) = find_local(self.scope, symbol) else {
            return self.load_upvalue(symbol);
        };
        Ok(Access::Local(id))
    }

    // What a load of a reference finds.
    #[tactic(auto, unfolding(crate::specs::Lookups::load_in))]
    pub fn load(&self, reference: u32) -> Result<Access, RunRule>
        ensures { access_of result ≡ load_in self.now.tables.now.references.now self.now.scope.now reference }
    {
        self.load_symbol(symbol_in(self.tables.references, reference)?)
    }

    fn store_symbol(&self, symbol: u32) -> Result<Access, RunRule>
        ensures { access_of result ≡ store_found self.now.tables.now.symbols.now self.now.scope.now symbol }
    {
        if is_global(self.tables.symbols, symbol) {
            return self.global(symbol, RunRule::Store);
        }
        find_local(self.scope, symbol)
            .map(Access::Local)
            .ok_or(RunRule::Store)
    }

    // What a store to a reference finds: the table of its symbol's kind alone is looked into.
    #[tactic(auto, unfolding(crate::specs::Lookups::store_in))]
    pub fn store(&self, reference: u32) -> Result<Access, RunRule>
        ensures { access_of result ≡ store_in self.now.tables.now.symbols.now self.now.tables.now.references.now self.now.scope.now reference }
    {
        self.store_symbol(symbol_in(self.tables.references, reference)?)
    }
}
