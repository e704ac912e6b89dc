// add_const and push_load_const, and the two opcodes that import.
ghost use Rattle.std.specs.Prelude.{◌≡◌, ℕ};
ghost use Rattle.opcode.specs.Words.{op_words, pair_of};
ghost use Rattle.opcode.specs.declared.index.ConstId.{ConstId};
ghost use Rattle.opcode.specs.declared.opcode.OpCode.{OpCode};
ghost use Rattle.tables.specs.Record.{word};
ghost use Rattle.pool.specs.ConstValues.{words_of, lit_of};
ghost use Rattle.pool.specs.declared.value.ConstValue.TheVariants.{Null as NullValue, Str as StrValue};

use crate::Context;
use crate::word::capped;
use opcode::index::ConstId;
use opcode::opcode::OpCode;
use pool::consts;
use pool::consts::ConstWords;
use pool::value::{ConstValue, LitKind};
use tables::ast::{detail, p, q};

impl Context<'_> {
    ghost use Rattle.context.specs.Sinks.{const_index, with_const, loads};

    // An equal value's index, or the next one.
    fn add_const(&mut self, recs: &[u32], value: ConstValue) -> ConstId
        ensures index { result.0 ≡ const_index recs.now (words_of value) self.old }
        ensures context { self.new ≡ with_const recs.now (words_of value) self.old }
    {
        let n = self.const_count as usize;
        let added = consts::add_const(recs, self.consts, n, ConstWords::from(value));
        self.const_count = capped(added.count);
        ConstId(capped(added.index))
    }

    // The opcode that names a constant.
    #[tactic(auto, unfolding(crate::specs::Sinks::loads, crate::specs::Sinks::pushed))]
    fn push_naming<F: Fn(ConstId) -> OpCode>(&mut self, recs: &[u32], value: ConstValue, op: F)
        requires callable { F.IsAlwaysCallable op }
        ensures { (code : ℕ) → ((i : ConstId) (r : OpCode) → F.post op i r → op_words r ≡ pair_of code i.0)
            → self.new ≡ loads recs.now code (words_of value) self.old }
    {
        if self.writes() {
            let const_id = self.add_const(recs, value);
            self.push_code(op(const_id))
        }
    }

    pub fn push_load_const(&mut self, recs: &[u32], value: ConstValue)
        ensures { self.new ≡ loads recs.now 6 (words_of value) self.old }
    {
        self.push_naming(recs, value, OpCode::LoadConst)
    }

    // visit_lit
    pub fn push_lit(&mut self, recs: &[u32], lit: usize)
        ensures { self.new ≡ loads recs.now 6
            (words_of (lit_of (word recs.now lit 1) (word recs.now lit 2) (word recs.now lit 3))) self.old }
    {
        let kind = LitKind {
            detail: detail(recs, lit),
            p: p(recs, lit),
            q: q(recs, lit),
        };
        self.push_load_const(recs, ConstValue::from(kind))
    }

    pub fn push_null(&mut self, recs: &[u32])
        ensures { self.new ≡ loads recs.now 6 (words_of NullValue) self.old }
    {
        self.push_load_const(recs, ConstValue::Null)
    }

    pub fn push_import(&mut self, recs: &[u32], path: u32)
        ensures { self.new ≡ loads recs.now 32 (words_of (StrValue path)) self.old }
    {
        self.push_naming(recs, ConstValue::Str(path), OpCode::Import)
    }

    pub fn push_import_from(&mut self, recs: &[u32], name: u32)
        ensures { self.new ≡ loads recs.now 33 (words_of (StrValue name)) self.old }
    {
        self.push_naming(recs, ConstValue::Str(name), OpCode::ImportFrom)
    }
}
