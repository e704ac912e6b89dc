// What a word of the tables says of a kind, and how a row names it. Each has a name for the words that no kind has.
ghost use Rattle.std.specs.Prelude.{◌≡◌};
ghost use Rattle.listing.specs.Kinds.{const_kind_of, name_of_const, name_of_function, capture_of, name_of_capture, error_kind_of, name_of_error};

use tables::kind::FunctionKind;

#[derive(Clone, Copy)]
pub(crate) enum ConstKind {
    Null,
    Bool,
    Int,
    Float,
    Str,
    Bytes,
    Function,
    Effect,
    Yield,
    Unknown,
}

impl From<u32> for ConstKind {
    ghost from_gives = { λ n k. k ≡ const_kind_of n };

    #[tactic(auto, unfolding(crate::specs::Kinds::const_kind_of))]
    fn from(n: u32) -> Self {
        match n {
            0 => ConstKind::Null,
            1 => ConstKind::Bool,
            2 => ConstKind::Int,
            3 => ConstKind::Float,
            4 => ConstKind::Str,
            5 => ConstKind::Bytes,
            6 => ConstKind::Function,
            7 => ConstKind::Effect,
            8 => ConstKind::Yield,
            _ => ConstKind::Unknown,
        }
    }
}

impl ConstKind {
    // "A const has its kind's name"
    pub(crate) fn name(self) -> &'static [u8]
        ensures { result.now ≡ name_of_const self }
    {
        match self {
            ConstKind::Null => b"Null",
            ConstKind::Bool => b"Bool",
            ConstKind::Int => b"Int",
            ConstKind::Float => b"Float",
            ConstKind::Str => b"Str",
            ConstKind::Bytes => b"Bytes",
            ConstKind::Function => b"Function",
            ConstKind::Effect => b"Effect",
            ConstKind::Yield => b"Yield",
            ConstKind::Unknown => b"",
        }
    }
}

// "30 Function (0 Function, 1 Closure, 2 Do"
pub(crate) fn function_name(kind: FunctionKind) -> &'static [u8]
    ensures { result.now ≡ name_of_function kind }
{
    match kind {
        FunctionKind::Function => b"Function",
        FunctionKind::Closure => b"Closure",
        FunctionKind::Do => b"Do",
        FunctionKind::Unknown => b"",
    }
}

// What an upvalue is in the function around; of names that are none no word is read.
#[derive(Clone, Copy)]
pub(crate) enum Capture {
    Local,
    Upvalue,
}

impl From<u32> for Capture {
    ghost from_gives = { λ n k. k ≡ capture_of n };

    #[tactic(auto, unfolding(crate::specs::Kinds::capture_of))]
    fn from(n: u32) -> Self {
        match n {
            1 => Capture::Local,
            _ => Capture::Upvalue,
        }
    }
}

impl Capture {
    // "capture word"
    pub(crate) fn name(self) -> &'static [u8]
        ensures { result.now ≡ name_of_capture self }
    {
        match self {
            Capture::Local => b"Local",
            Capture::Upvalue => b"Upvalue",
        }
    }
}

#[derive(Clone, Copy)]
pub(crate) enum ErrorKind {
    BreakOutsideLoop,
    ContinueOutsideLoop,
    ReturnOutsideFunction,
    Unknown,
}

impl From<u32> for ErrorKind {
    ghost from_gives = { λ n k. k ≡ error_kind_of n };

    #[tactic(auto, unfolding(crate::specs::Kinds::error_kind_of))]
    fn from(n: u32) -> Self {
        match n {
            0 => ErrorKind::BreakOutsideLoop,
            1 => ErrorKind::ContinueOutsideLoop,
            2 => ErrorKind::ReturnOutsideFunction,
            _ => ErrorKind::Unknown,
        }
    }
}

impl ErrorKind {
    // "kind 0 Break, 1 Continue, 2 Return"
    pub(crate) fn name(self) -> &'static [u8]
        ensures { result.now ≡ name_of_error self }
    {
        match self {
            ErrorKind::BreakOutsideLoop => b"BreakOutsideLoop",
            ErrorKind::ContinueOutsideLoop => b"ContinueOutsideLoop",
            ErrorKind::ReturnOutsideFunction => b"ReturnOutsideFunction",
            ErrorKind::Unknown => b"",
        }
    }
}
