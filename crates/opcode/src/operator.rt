// The operators by number, and the opcode that each becomes.
ghost use Rattle.std.specs.Prelude.{◌≡◌, ok_or};
ghost use Rattle.opcode.specs.Operators.{bin_op, un_op, from_bin_op, from_un_op};

use crate::index::UnknownNumber;
use crate::opcode::OpCode;

#[derive(Clone, Copy, Debug, PartialEq, Eq)]
pub enum UnOp {
    Not,
    Neg,
}

#[derive(Clone, Copy, Debug, PartialEq, Eq)]
pub enum BinOp {
    Add,
    Sub,
    Mul,
    Div,
    Rem,
    And,
    Or,
    Eq,
    Ne,
    Lt,
    Le,
    Gt,
    Ge,
    Is,
}

// An operator that has no opcode of its own: And, Or or Is.
#[derive(Clone, Copy, Debug, PartialEq, Eq)]
pub struct NoOpCode(pub BinOp);

const UN_OPS: [UnOp; 2] = [UnOp::Not, UnOp::Neg];

const BIN_OPS: [BinOp; 14] = [
    BinOp::Add,
    BinOp::Sub,
    BinOp::Mul,
    BinOp::Div,
    BinOp::Rem,
    BinOp::And,
    BinOp::Or,
    BinOp::Eq,
    BinOp::Ne,
    BinOp::Lt,
    BinOp::Le,
    BinOp::Gt,
    BinOp::Ge,
    BinOp::Is,
];

impl TryFrom<u32> for UnOp {
    type Error = UnknownNumber;

    ghost try_from_gives = { λ n r. r ≡ ok_or (un_op n) (record { 0 = n }) };

    #[tactic(auto, unfolding(crate::specs::Operators::un_op))]
    fn try_from(n: u32) -> Result<Self, UnknownNumber> {
        UN_OPS.get(n as usize).copied().ok_or(UnknownNumber(n))
    }
}

impl TryFrom<u32> for BinOp {
    type Error = UnknownNumber;

    ghost try_from_gives = { λ n r. r ≡ ok_or (bin_op n) (record { 0 = n }) };

    #[tactic(auto, unfolding(crate::specs::Operators::bin_op))]
    fn try_from(n: u32) -> Result<Self, UnknownNumber> {
        BIN_OPS.get(n as usize).copied().ok_or(UnknownNumber(n))
    }
}

impl From<UnOp> for OpCode {
    ghost from_gives = { λ op r. r ≡ from_un_op op };

    fn from(value: UnOp) -> Self {
        match value {
            UnOp::Not => OpCode::Not,
            UnOp::Neg => OpCode::Neg,
        }
    }
}

impl TryFrom<BinOp> for OpCode {
    type Error = NoOpCode;

    ghost try_from_gives = { λ op r. r ≡ ok_or (from_bin_op op) (record { 0 = op }) };

    fn try_from(value: BinOp) -> Result<Self, NoOpCode> {
        match value {
            BinOp::Add => Ok(OpCode::Add),
            BinOp::Sub => Ok(OpCode::Sub),
            BinOp::Mul => Ok(OpCode::Mul),
            BinOp::Div => Ok(OpCode::Div),
            BinOp::Rem => Ok(OpCode::Rem),
            BinOp::Eq => Ok(OpCode::Eq),
            BinOp::Ne => Ok(OpCode::Ne),
            BinOp::Lt => Ok(OpCode::Lt),
            BinOp::Le => Ok(OpCode::Le),
            BinOp::Gt => Ok(OpCode::Gt),
            BinOp::Ge => Ok(OpCode::Ge),
            BinOp::And | BinOp::Or | BinOp::Is => Err(NoOpCode(value)),
        }
    }
}
