// The names of one function, made as the Rust's gen_function_code makes its three maps, while its parent's names are the stamped ones.
ghost use Rattle.std.specs.Prelude.{◌≡◌, ◌+◌, ◌<◌, ◌≤◌, length};
ghost use Rattle.pool.specs.Scope.{stamps};
ghost use Rattle.pool.specs.NameWords.{table_of, entry_of, entry_words, entry_for, chosen, entries_laid, span_of};
ghost use Rattle.pool.specs.NameSteps.{symbols_at, entries_named, spans_named, stamped_names};

use crate::entries::put;
use crate::lookup::{Lookup, find_local, find_upvalue, is_global};
use crate::scope::{Scope, Table};
use crate::spans::{Span, put_span, span_of};
use opcode::index::{LocalNameId, UpvalueNameId};
use tables::semantic::entry;

// What a symbol of a function is there; a captured one is in the parent's table.
#[derive(Clone, Copy, Debug, PartialEq, Eq)]
pub enum Class {
    Local,
    Global,
    CapturedLocal(LocalNameId),
    CapturedUpvalue(UpvalueNameId),
}

impl Class {
    // The table that the symbol goes to.
    fn table(self) -> Table
        ensures { result ≡ table_of self }
    {
        match self {
            Class::Local => Table::Locals,
            Class::Global => Table::Globals,
            Class::CapturedLocal(_) | Class::CapturedUpvalue(_) => Table::Upvalues,
        }
    }

    // The words of the symbol's entry: "symbol, capture 0 none, 1 Local, 2 Upvalue, its index or 0".
    fn entry(self, symbol: u32) -> [u32; 3]
        ensures { result ≡ entry_words (entry_of self symbol) }
    {
        match self {
            Class::Local | Class::Global => [symbol, 0, 0],
            Class::CapturedLocal(id) => [symbol, 1, id.0],
            Class::CapturedUpvalue(id) => [symbol, 2, id.0],
        }
    }
}

impl Lookup<'_> {
    ghost use Rattle.pool.specs.NameSteps.{class_by};

    fn classify(&self, symbol: u32) -> Class
        ensures { result ≡ class_by self.now symbol }
    {
        if is_global(self.tables.symbols, symbol) {
            return Class::Global;
        }
        find_local(self.scope, symbol)
            .map(Class::CapturedLocal)
            .or_else(|| find_upvalue(self.scope, symbol).map(Class::CapturedUpvalue))
            .unwrap_or(Class::Local)
    }

    // A symbol of the share is written at place n if it is for this table; answers the place behind.
    #[tactic(auto, using(crate::proofs::NameTables::tables_compared), unfolding(crate::specs::NameWords::entries_laid))]
    fn step(&self, entries: &mut [u32], table: Table, n: usize, symbol: u32) -> usize
        requires { n < 8589934592 }
        ensures words { entries.new ≡ entries_laid entries.old n (entry_for table (class_by self.now symbol) symbol) }
        ensures place { result ≡ n + length (entry_for table (class_by self.now symbol) symbol) }
    {
        let class = self.classify(symbol);
        if class.table() == table {
            put(entries, n, class.entry(symbol));
            return n + 1;
        }
        n
    }

    // A pass over the share, for one table.
    fn pass(&self, entries: &mut [u32], share: &[u32], table: Table, n: usize) -> usize
        requires { n + length share.now < 8589934592 }
        ensures words { entries.new ≡ entries_laid entries.old n (chosen table (class_by self.now) share.now) }
        ensures place { result ≡ n + length (chosen table (class_by self.now) share.now) }
    {
        let mut at = n;
        for symbol in share {
            at = self.step(entries, table, at, *symbol);
        }
        at
    }

    // The names of function f, from its span's start on, and its span: locals, globals, upvalues.
    #[tactic(auto, using(crate::proofs::NameTables::chosen_most), unfolding(crate::specs::NameSteps::entries_named, crate::specs::NameSteps::spans_named))]
    pub fn name(&self, entries: &mut [u32], spans: &mut [Span], share: &[u32], f: usize)
        ensures words { entries.new ≡ entries_named (class_by self.now) share.now
            entries.old (span_of spans.old f).start }
        ensures span { spans.new ≡ spans_named (class_by self.now) share.now spans.old f }
    {
        // row 1's limit
        if share.len() <= 1024 {
            let start = span_of(spans, f).start;
            let n = start as usize;
            let globals = self.pass(entries, share, Table::Locals, n);
            let upvalues = self.pass(entries, share, Table::Globals, globals);
            let end = self.pass(entries, share, Table::Upvalues, upvalues);
            put_span(
                spans,
                f,
                Span {
                    start,
                    locals: (globals - n) as u32,
                    globals: (upvalues - globals) as u32,
                    upvalues: (end - upvalues) as u32,
                },
            );
        }
    }
}

impl Scope {
    // The entries from place n on, count of them, are the owner's names in this table; of equal symbols the first counts.
    #[tactic(auto, using(crate::proofs::StampLaws::stamp_start, crate::proofs::StampLaws::stamp_more))]
    fn stamp_table(&mut self, entries: &[u32], table: Table, n: usize, count: u16)
        requires { n < 17179869184 }
        ensures { self.new ≡ stamps self.old table 0 (symbols_at entries.now n count) }
    {
        for i in (0..count).rev() {
            let at = n + i as usize;
            self.stamp(table, entry(entries, at * 3), i);
        }
    }

    // The names of a span become the stamped ones, as those of the owner.
    pub(crate) fn stamp_names(&mut self, entries: &[u32], span: Span, owner: u16)
        requires { span.locals + span.globals + span.upvalues ≤ 1024 }
        ensures { self.new ≡ stamped_names self.old entries.now span owner }
    {
        let locals = span.start as usize;
        let globals = locals + span.locals as usize;
        let upvalues = globals + span.globals as usize;
        self.owner = owner;
        self.stamp_table(entries, Table::Locals, locals, span.locals as u16);
        self.stamp_table(entries, Table::Globals, globals, span.globals as u16);
        self.stamp_table(entries, Table::Upvalues, upvalues, span.upvalues as u16);
    }
}
