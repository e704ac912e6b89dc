// A marker of each code, with the operand 7 where it has one.
use opcode::index::{ConstId, GlobalNameId, LabelId, LocalNameId, UpvalueNameId};
use opcode::opcode::{CodeMarker, OpCode};

pub fn marker(code: u32) -> Option<CodeMarker> {
    match code {
        0..52 => Some(CodeMarker::OpCode(op(code))),
        52 => Some(CodeMarker::Label(LabelId(7))),
        _ => None,
    }
}

fn op(code: u32) -> OpCode {
    match code {
        0 => OpCode::Pop,
        1 => OpCode::Copy(7),
        2 => OpCode::Swap(7),
        3 => OpCode::LoadLocal(LocalNameId(7)),
        4 => OpCode::LoadGlobal(GlobalNameId(7)),
        5 => OpCode::LoadUpvalue(UpvalueNameId(7)),
        6 => OpCode::LoadConst(ConstId(7)),
        7 => OpCode::StoreLocal(LocalNameId(7)),
        8 => OpCode::StoreGlobal(GlobalNameId(7)),
        9 => OpCode::BuildTable(7),
        10 => OpCode::BuildList(7),
        11 => OpCode::GetAttr,
        12 => OpCode::GetItem,
        13 => OpCode::GetMeta,
        14 => OpCode::SetAttr,
        15 => OpCode::SetItem,
        16 => OpCode::SetMeta,
        17 => OpCode::Neg,
        18 => OpCode::Not,
        19 => OpCode::Add,
        20 => OpCode::Sub,
        21 => OpCode::Mul,
        22 => OpCode::Div,
        23 => OpCode::Rem,
        24 => OpCode::Eq,
        25 => OpCode::Ne,
        26 => OpCode::Gt,
        27 => OpCode::Ge,
        28 => OpCode::Lt,
        29 => OpCode::Le,
        30 => OpCode::TypeCheck(7),
        31 => OpCode::GetLen,
        32 => OpCode::Import(ConstId(7)),
        33 => OpCode::ImportFrom(ConstId(7)),
        34 => OpCode::ImportGlob,
        35 => OpCode::Iter,
        36 => OpCode::Call(7),
        37 => OpCode::Return,
        38 => OpCode::ReturnCall(7),
        39 => OpCode::LoadLocals,
        40 => OpCode::Jump(LabelId(7)),
        41 => OpCode::JumpBackEdge(LabelId(7)),
        42 => OpCode::Break(LabelId(7)),
        43 => OpCode::Continue(LabelId(7)),
        44 => OpCode::JumpPopIfNull(LabelId(7)),
        45 => OpCode::PopJumpIfTrue(LabelId(7)),
        46 => OpCode::PopJumpIfFalse(LabelId(7)),
        47 => OpCode::JumpIfTrueOrPop(LabelId(7)),
        48 => OpCode::JumpIfFalseOrPop(LabelId(7)),
        49 => OpCode::RegisterHandler(LabelId(7)),
        50 => OpCode::CheckEffect(7),
        _ => OpCode::MarkAddStackSize(7),
    }
}
