// A marker as its two words.
ghost use Rattle.std.specs.Prelude.{◌≡◌};
ghost use Rattle.opcode.specs.Words.{op_words, words_of, pair_of};

use crate::opcode::{CodeMarker, OpCode, Words};

impl From<CodeMarker> for Words {
    ghost from_gives = { λ m w. w ≡ words_of m };

    fn from(m: CodeMarker) -> Self {
        match m {
            CodeMarker::OpCode(op) => op.into(),
            CodeMarker::Label(x) => pair(52, x.0),
        }
    }
}

// One match over the enum, so that a code left out does not compile.
impl From<OpCode> for Words {
    ghost from_gives = { λ op w. w ≡ op_words op };

    fn from(op: OpCode) -> Self {
        match op {
            OpCode::Pop => pair(0, 0),
            OpCode::Copy(x) => pair(1, x),
            OpCode::Swap(x) => pair(2, x),
            OpCode::LoadLocal(x) => pair(3, x.0),
            OpCode::LoadGlobal(x) => pair(4, x.0),
            OpCode::LoadUpvalue(x) => pair(5, x.0),
            OpCode::LoadConst(x) => pair(6, x.0),
            OpCode::StoreLocal(x) => pair(7, x.0),
            OpCode::StoreGlobal(x) => pair(8, x.0),
            OpCode::BuildTable(x) => pair(9, x),
            OpCode::BuildList(x) => pair(10, x),
            OpCode::GetAttr => pair(11, 0),
            OpCode::GetItem => pair(12, 0),
            OpCode::GetMeta => pair(13, 0),
            OpCode::SetAttr => pair(14, 0),
            OpCode::SetItem => pair(15, 0),
            OpCode::SetMeta => pair(16, 0),
            OpCode::Neg => pair(17, 0),
            OpCode::Not => pair(18, 0),
            OpCode::Add => pair(19, 0),
            OpCode::Sub => pair(20, 0),
            OpCode::Mul => pair(21, 0),
            OpCode::Div => pair(22, 0),
            OpCode::Rem => pair(23, 0),
            OpCode::Eq => pair(24, 0),
            OpCode::Ne => pair(25, 0),
            OpCode::Gt => pair(26, 0),
            OpCode::Ge => pair(27, 0),
            OpCode::Lt => pair(28, 0),
            OpCode::Le => pair(29, 0),
            OpCode::TypeCheck(x) => pair(30, x),
            OpCode::GetLen => pair(31, 0),
            OpCode::Import(x) => pair(32, x.0),
            OpCode::ImportFrom(x) => pair(33, x.0),
            OpCode::ImportGlob => pair(34, 0),
            OpCode::Iter => pair(35, 0),
            OpCode::Call(x) => pair(36, x),
            OpCode::Return => pair(37, 0),
            OpCode::ReturnCall(x) => pair(38, x),
            OpCode::LoadLocals => pair(39, 0),
            OpCode::Jump(x) => pair(40, x.0),
            OpCode::JumpBackEdge(x) => pair(41, x.0),
            OpCode::Break(x) => pair(42, x.0),
            OpCode::Continue(x) => pair(43, x.0),
            OpCode::JumpPopIfNull(x) => pair(44, x.0),
            OpCode::PopJumpIfTrue(x) => pair(45, x.0),
            OpCode::PopJumpIfFalse(x) => pair(46, x.0),
            OpCode::JumpIfTrueOrPop(x) => pair(47, x.0),
            OpCode::JumpIfFalseOrPop(x) => pair(48, x.0),
            OpCode::RegisterHandler(x) => pair(49, x.0),
            OpCode::CheckEffect(x) => pair(50, x),
            OpCode::MarkAddStackSize(x) => pair(51, x),
        }
    }
}

fn pair(code: u32, operand: u32) -> Words
    ensures { result ≡ pair_of code operand }
{
    Words { code, operand }
}
