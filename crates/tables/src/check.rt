// The rows of the checks in document 01's order, each over all its places before the next.
ghost use Rattle.std.specs.Prelude.{◌≡◌, ◌<◌, ◌≤◌};
ghost use Rattle.tables.specs.Record.{size as size_of};
ghost use Rattle.tables.specs.Check.{rows_of, check_of};

use crate::children::children;
use crate::details::details;
use crate::entries::entries;
use crate::lent::{Tables, lent};
use crate::links::links;
use crate::naming::naming;
use crate::nesting::nesting;
use crate::numbering::numbering;
use crate::refusal::{RecordRule, Refusal};
use crate::semantic::pairs;

// Rows 3 to 9, for tables that keep row 1.
pub fn rows(tables: &Tables) -> Result<(), Refusal>
    ensures { size_of tables.now.records.now ≤ 4096 → 0 < size_of tables.now.records.now
        → result ≡ rows_of tables.now.strings.now tables.now.bytes.now tables.now.symbols.now tables.now.references.now
        tables.now.functions.now tables.now.members.now tables.now.records.now }
{
    let records = tables.records;
    if let Some(i) = entries(tables) {
        return Err(Refusal::Entry(i));
    }
    if let Some(i) = details(records, pairs(tables.strings)) {
        return Err(Refusal::Record(RecordRule::Detail, i));
    }
    if let Some(i) = links(records) {
        return Err(Refusal::Record(RecordRule::Link, i));
    }
    if let Some(i) = children(records) {
        return Err(Refusal::Record(RecordRule::Children, i));
    }
    if let Some(i) = naming(records) {
        return Err(Refusal::Record(RecordRule::Naming, i));
    }
    if let Some(i) = nesting(records) {
        return Err(Refusal::Record(RecordRule::Nesting, i));
    }
    if let Some(i) = numbering(records, tables.functions) {
        return Err(Refusal::Record(RecordRule::Numbering, i));
    }
    Ok(())
}

// Row 1, then rows 3 to 9. Row 2, the output space, is the generator's.
pub fn check(tables: &Tables) -> Result<(), Refusal>
    ensures { result ≡ check_of tables.now.strings.now tables.now.bytes.now tables.now.symbols.now tables.now.references.now
        tables.now.functions.now tables.now.members.now tables.now.records.now }
{
    if let Some(i) = lent(tables) {
        return Err(Refusal::Table(i));
    }
    rows(tables)
}
