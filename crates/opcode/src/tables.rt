// What is fixed for each of the 53 codes: its name, its operand's kind, and whether the operand is a target.
ghost use Rattle.std.specs.Prelude.{◌≡◌, slice_get, option_copied};
ghost use Rattle.opcode.specs.Kinds.{operand_kind, target};
ghost use Rattle.opcode.specs.Names.{names};

use crate::opcode::OperandKind;

const NAMES: [&str; 53] = [
    "Pop",
    "Copy",
    "Swap",
    "LoadLocal",
    "LoadGlobal",
    "LoadUpvalue",
    "LoadConst",
    "StoreLocal",
    "StoreGlobal",
    "BuildTable",
    "BuildList",
    "GetAttr",
    "GetItem",
    "GetMeta",
    "SetAttr",
    "SetItem",
    "SetMeta",
    "Neg",
    "Not",
    "Add",
    "Sub",
    "Mul",
    "Div",
    "Rem",
    "Eq",
    "Ne",
    "Gt",
    "Ge",
    "Lt",
    "Le",
    "TypeCheck",
    "GetLen",
    "Import",
    "ImportFrom",
    "ImportGlob",
    "Iter",
    "Call",
    "Return",
    "ReturnCall",
    "LoadLocals",
    "Jump",
    "JumpBackEdge",
    "Break",
    "Continue",
    "JumpPopIfNull",
    "PopJumpIfTrue",
    "PopJumpIfFalse",
    "JumpIfTrueOrPop",
    "JumpIfFalseOrPop",
    "RegisterHandler",
    "CheckEffect",
    "MarkAddStackSize",
    "Label",
];

const KINDS: [OperandKind; 53] = [
    OperandKind::None, // Pop
    OperandKind::Count, // Copy
    OperandKind::Count, // Swap
    OperandKind::Local, // LoadLocal
    OperandKind::Global, // LoadGlobal
    OperandKind::Upvalue, // LoadUpvalue
    OperandKind::Const, // LoadConst
    OperandKind::Local, // StoreLocal
    OperandKind::Global, // StoreGlobal
    OperandKind::Count, // BuildTable
    OperandKind::Count, // BuildList
    OperandKind::None, // GetAttr
    OperandKind::None, // GetItem
    OperandKind::None, // GetMeta
    OperandKind::None, // SetAttr
    OperandKind::None, // SetItem
    OperandKind::None, // SetMeta
    OperandKind::None, // Neg
    OperandKind::None, // Not
    OperandKind::None, // Add
    OperandKind::None, // Sub
    OperandKind::None, // Mul
    OperandKind::None, // Div
    OperandKind::None, // Rem
    OperandKind::None, // Eq
    OperandKind::None, // Ne
    OperandKind::None, // Gt
    OperandKind::None, // Ge
    OperandKind::None, // Lt
    OperandKind::None, // Le
    OperandKind::Type, // TypeCheck
    OperandKind::None, // GetLen
    OperandKind::Const, // Import
    OperandKind::Const, // ImportFrom
    OperandKind::None, // ImportGlob
    OperandKind::None, // Iter
    OperandKind::Count, // Call
    OperandKind::None, // Return
    OperandKind::Count, // ReturnCall
    OperandKind::None, // LoadLocals
    OperandKind::Label, // Jump
    OperandKind::Label, // JumpBackEdge
    OperandKind::Label, // Break
    OperandKind::Label, // Continue
    OperandKind::Label, // JumpPopIfNull
    OperandKind::Label, // PopJumpIfTrue
    OperandKind::Label, // PopJumpIfFalse
    OperandKind::Label, // JumpIfTrueOrPop
    OperandKind::Label, // JumpIfFalseOrPop
    OperandKind::Label, // RegisterHandler
    OperandKind::Count, // CheckEffect
    OperandKind::Count, // MarkAddStackSize
    OperandKind::Label, // Label
];

const TARGETS: [bool; 53] = [
    false, // Pop
    false, // Copy
    false, // Swap
    false, // LoadLocal
    false, // LoadGlobal
    false, // LoadUpvalue
    false, // LoadConst
    false, // StoreLocal
    false, // StoreGlobal
    false, // BuildTable
    false, // BuildList
    false, // GetAttr
    false, // GetItem
    false, // GetMeta
    false, // SetAttr
    false, // SetItem
    false, // SetMeta
    false, // Neg
    false, // Not
    false, // Add
    false, // Sub
    false, // Mul
    false, // Div
    false, // Rem
    false, // Eq
    false, // Ne
    false, // Gt
    false, // Ge
    false, // Lt
    false, // Le
    false, // TypeCheck
    false, // GetLen
    false, // Import
    false, // ImportFrom
    false, // ImportGlob
    false, // Iter
    false, // Call
    false, // Return
    false, // ReturnCall
    false, // LoadLocals
    true, // Jump
    true, // JumpBackEdge
    true, // Break
    true, // Continue
    true, // JumpPopIfNull
    true, // PopJumpIfTrue
    true, // PopJumpIfFalse
    true, // JumpIfTrueOrPop
    true, // JumpIfFalseOrPop
    true, // RegisterHandler
    false, // CheckEffect
    false, // MarkAddStackSize
    false, // Label
];

// Past the last code there is nothing.
pub fn name(code: u32) -> Option<&'static str>
    ensures { option_copied result ≡ slice_get names code }
{
    NAMES.get(code as usize).copied()
}

#[tactic(auto, using(crate::proofs::Table::got), unfolding(crate::specs::Kinds::operand_kind))]
pub fn operand_kind(code: u32) -> Option<OperandKind>
    ensures { result ≡ operand_kind code }
{
    KINDS.get(code as usize).copied()
}

#[tactic(auto, using(crate::proofs::Table::got), unfolding(crate::specs::Kinds::target))]
pub fn is_target(code: u32) -> Option<bool>
    ensures { result ≡ target code }
{
    TARGETS.get(code as usize).copied()
}
