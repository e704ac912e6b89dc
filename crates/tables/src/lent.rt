// Row 1: the lent tables by their lengths alone.
ghost use Rattle.std.specs.Prelude.{◌≡◌, ◌<◌};
ghost use Rattle.tables.specs.Lent.{unfit as unfit_of, first_refused, lent_broken};

// Tables 1 to 7, as they are lent.
#[derive(Clone, Copy)]
pub struct Tables<'a> {
    pub strings: &'a [u32],
    pub bytes: &'a [u8],
    pub symbols: &'a [u32],
    pub references: &'a [u32],
    pub functions: &'a [u32],
    pub members: &'a [u32],
    pub records: &'a [u32],
}

// More entries than the limit, or words left over.
#[tactic(auto, unfolding(crate::specs::Lent::unfit))]
fn unfit(words: usize, width: usize, limit: usize) -> bool
    requires { 0 < width }
    ensures { result ≡ unfit_of width limit words }
{
    limit < words / width || 0 < words % width
}

// The first of some tests that fails.
pub fn first(refused: &[bool]) -> Option<usize>
    ensures { result ≡ first_refused 0 refused.now }
{
    refused.iter().position(|&refused| refused)
}

// The first table, by its number, that is over its limit, has a part entry, or is table 7 with no records.
pub fn lent(tables: &Tables) -> Option<usize>
    ensures { result ≡ lent_broken tables.now.strings.now tables.now.bytes.now tables.now.symbols.now
        tables.now.references.now tables.now.functions.now tables.now.members.now tables.now.records.now }
{
    first(&[
        unfit(tables.strings.len(), 2, 1024),
        unfit(tables.bytes.len(), 1, 65536),
        unfit(tables.symbols.len(), 2, 1024),
        unfit(tables.references.len(), 1, 4096),
        unfit(tables.functions.len(), 2, 256),
        unfit(tables.members.len(), 1, 1024),
        unfit(tables.records.len(), 8, 4096) || tables.records.is_empty(),
    ])
    .map(|table| table + 1)
}
