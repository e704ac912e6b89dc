// The kinds of member expression by number, and the opcodes that get and set one.
ghost use Rattle.std.specs.Prelude.{◌≡◌, ok_or};
ghost use Rattle.opcode.specs.Members.{member_kind, get_of, set_of};

use crate::index::UnknownNumber;
use crate::opcode::OpCode;

// The expression or name that the first three hold is a child of the record.
#[derive(Clone, Copy, Debug, PartialEq, Eq)]
pub enum MemberKind {
    Bracket,
    Dot,
    DoubleColon,
    BracketMeta,
    DotMeta,
    DoubleColonMeta,
}

const MEMBER_KINDS: [MemberKind; 6] = [
    MemberKind::Bracket,
    MemberKind::Dot,
    MemberKind::DoubleColon,
    MemberKind::BracketMeta,
    MemberKind::DotMeta,
    MemberKind::DoubleColonMeta,
];

impl TryFrom<u32> for MemberKind {
    type Error = UnknownNumber;

    ghost try_from_gives = { λ n r. r ≡ ok_or (member_kind n) (record { 0 = n }) };

    #[tactic(auto, unfolding(crate::specs::Members::member_kind))]
    fn try_from(n: u32) -> Result<Self, UnknownNumber> {
        MEMBER_KINDS
            .get(n as usize)
            .copied()
            .ok_or(UnknownNumber(n))
    }
}

impl MemberKind {
    pub fn get_opcode(self) -> OpCode
        ensures { result ≡ get_of self }
    {
        match self {
            MemberKind::Bracket => OpCode::GetItem,
            MemberKind::Dot | MemberKind::DoubleColon => OpCode::GetAttr,
            MemberKind::BracketMeta | MemberKind::DotMeta | MemberKind::DoubleColonMeta => {
                OpCode::GetMeta
            }
        }
    }

    pub fn set_opcode(self) -> OpCode
        ensures { result ≡ set_of self }
    {
        match self {
            MemberKind::Bracket => OpCode::SetItem,
            MemberKind::Dot | MemberKind::DoubleColon => OpCode::SetAttr,
            MemberKind::BracketMeta | MemberKind::DotMeta | MemberKind::DoubleColonMeta => {
                OpCode::SetMeta
            }
        }
    }
}
