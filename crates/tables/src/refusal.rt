// Why and where a call is refused. Numbers and places of document 01 are in specs/Refusal.
ghost use Rattle.std.specs.Prelude.{◌≡◌};
ghost use Rattle.tables.specs.Refusal.{record_number, run_number, rule_of, number_of, place_of};

// The rules that a record breaks: numbers 4 to 9.
#[derive(Clone, Copy, Debug, PartialEq, Eq)]
pub enum RecordRule {
    Detail,
    Link,
    Children,
    Naming,
    Nesting,
    Numbering,
}

// The rules that a run meets broken: numbers 10 to 16.
#[derive(Clone, Copy, Debug, PartialEq, Eq)]
pub enum RunRule {
    Reference,
    Load,
    Store,
    Operator,
    Lengths,
    Path,
    Skipped,
}

// A refusal holds where it arose: a lent table, an output space, a table's entry, a record, or a record met in the run.
#[derive(Clone, Copy, Debug, PartialEq, Eq)]
pub enum Refusal {
    Table(usize),
    Space(usize),
    Entry(usize),
    Record(RecordRule, usize),
    Run(RunRule, usize),
}

impl RecordRule {
    fn number(self) -> u32
        ensures { result ≡ record_number self }
    {
        match self {
            RecordRule::Detail => 4,
            RecordRule::Link => 5,
            RecordRule::Children => 6,
            RecordRule::Naming => 7,
            RecordRule::Nesting => 8,
            RecordRule::Numbering => 9,
        }
    }
}

impl RunRule {
    pub fn number(self) -> u32
        ensures { result ≡ run_number self }
    {
        match self {
            RunRule::Reference => 10,
            RunRule::Load => 11,
            RunRule::Store => 12,
            RunRule::Operator => 13,
            RunRule::Lengths => 14,
            RunRule::Path => 15,
            RunRule::Skipped => 16,
        }
    }
}

// The rule of a number; any other number is the last one's.
impl From<u32> for RunRule {
    ghost from_gives = { λ number rule. rule ≡ rule_of number };

    fn from(number: u32) -> Self {
        match number {
            10 => RunRule::Reference,
            11 => RunRule::Load,
            12 => RunRule::Store,
            13 => RunRule::Operator,
            14 => RunRule::Lengths,
            15 => RunRule::Path,
            _ => RunRule::Skipped,
        }
    }
}

impl Refusal {
    pub fn number(self) -> u32
        ensures { result ≡ number_of self }
    {
        match self {
            Refusal::Table(_) => 1,
            Refusal::Space(_) => 2,
            Refusal::Entry(_) => 3,
            Refusal::Record(rule, _) => rule.number(),
            Refusal::Run(rule, _) => rule.number(),
        }
    }

    pub fn place(self) -> usize
        ensures { result ≡ place_of self }
    {
        match self {
            Refusal::Table(at) | Refusal::Space(at) | Refusal::Entry(at) => at,
            Refusal::Record(_, at) | Refusal::Run(_, at) => at,
        }
    }
}
