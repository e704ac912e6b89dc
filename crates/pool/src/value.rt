// The Rust's ConstValue, with the records' words for what it holds.
ghost use Rattle.std.specs.Prelude.{◌≡◌};
ghost use Rattle.pool.specs.ConstValues.{words_of, lit_of};

use crate::consts::{ConstWords, EFFECT};
use opcode::index::FunctionId;

#[derive(Clone, Copy, Debug, PartialEq, Eq)]
pub enum ConstValue {
    Null,
    Bool(u32),
    Int(u32, u32),
    Float(u32, u32),
    Str(u32),
    Bytes(u32),
    Function(FunctionId),
    // the Effect or Handler that brings it
    Effect(u32),
    Yield,
}

impl From<ConstValue> for ConstWords {
    ghost from_gives = { λ value words. words ≡ words_of value };

    fn from(value: ConstValue) -> ConstWords {
        let (kind, low, high) = match value {
            ConstValue::Null => (0, 0, 0),
            ConstValue::Bool(v) => (1, v, 0),
            ConstValue::Int(low, high) => (2, low, high),
            ConstValue::Float(low, high) => (3, low, high),
            ConstValue::Str(v) => (4, v, 0),
            ConstValue::Bytes(v) => (5, v, 0),
            ConstValue::Function(id) => (6, id.0, 0),
            ConstValue::Effect(r) => (EFFECT, r, 0),
            ConstValue::Yield => (8, 0, 0),
        };
        ConstWords { kind, low, high }
    }
}

// The Rust's LitKind in a record's words: its detail, and the two that hold its value.
#[derive(Clone, Copy, Debug, PartialEq, Eq)]
pub struct LitKind {
    pub detail: u32,
    pub p: u32,
    pub q: u32,
}

impl From<LitKind> for ConstValue {
    ghost from_gives = { λ lit value. value ≡ lit_of lit.detail lit.p lit.q };

    fn from(lit: LitKind) -> ConstValue {
        match lit.detail {
            0 => ConstValue::Null,
            1 => ConstValue::Bool(lit.p),
            2 => ConstValue::Int(lit.p, lit.q),
            3 => ConstValue::Float(lit.p, lit.q),
            4 => ConstValue::Str(lit.p),
            _ => ConstValue::Bytes(lit.p),
        }
    }
}
