// What is noted of each record before the walks: its earlier sibling, and of an Ident what its load and its store come to. An Access is noted as its
// opcode, or the number of the rule that refuses it, times 4,096, and its index. A record with no note has no reference and no earlier sibling.
ghost use Rattle.std.specs.Prelude.{◌≡◌, ◌+◌, ◌*◌, ◌%◌, ◌≤◌};
ghost use Rattle.pool.specs.NameWords.{access_of};
ghost use Rattle.pool.specs.Notes.{word_at, earlier_noted, load_of, store_of, load_noted, store_noted, load_note, store_note, note_earlier, note_ident};

use crate::lookup::Access;
use opcode::index::{GlobalNameId, LocalNameId, UpvalueNameId};
use tables::refusal::RunRule;

pub const SIZE: usize = 12288;

pub type Notes = [u32; SIZE];

const RECORDS: usize = 4096;

const LOADS: usize = 4096;

const STORES: usize = 8192;

const LOAD_LOCAL: u32 = 3;

const LOAD_GLOBAL: u32 = 4;

const LOAD_UPVALUE: u32 = 5;

const STORE_LOCAL: u32 = 7;

const STORE_GLOBAL: u32 = 8;

const NO_LOAD: u32 = 11;

const NO_STORE: u32 = 12;

// The word of record r from this place on, 0 where there is none.
fn word_at(notes: &Notes, from: usize, r: usize) -> u32
    requires { from ≤ 8192 }
    ensures { result ≡ word_at notes.now from r }
{
    if r < RECORDS { notes[from + r] } else { 0 }
}

// The earlier sibling of record r, 0 for none.
pub fn earlier(notes: &Notes, r: usize) -> usize
    ensures { result ≡ earlier_noted notes.now r }
{
    word_at(notes, 0, r) as usize
}

// What a noted load comes to.
#[tactic(auto, unfolding(crate::specs::Notes::load_of))]
fn load_access(note: u32) -> Result<Access, RunRule>
    ensures { access_of result ≡ load_of note }
{
    let index = note % 4096;
    match note / 4096 {
        LOAD_LOCAL => Ok(Access::Local(LocalNameId(index))),
        LOAD_GLOBAL => Ok(Access::Global(GlobalNameId(index))),
        LOAD_UPVALUE => Ok(Access::Upvalue(UpvalueNameId(index))),
        NO_LOAD => Err(RunRule::Load),
        _ => Err(RunRule::Reference),
    }
}

// What a noted store comes to; never an upvalue.
#[tactic(auto, unfolding(crate::specs::Notes::store_of))]
fn store_access(note: u32) -> Result<Access, RunRule>
    ensures { access_of result ≡ store_of note }
{
    let index = note % 4096;
    match note / 4096 {
        STORE_LOCAL => Ok(Access::Local(LocalNameId(index))),
        STORE_GLOBAL => Ok(Access::Global(GlobalNameId(index))),
        NO_STORE => Err(RunRule::Store),
        _ => Err(RunRule::Reference),
    }
}

// What a load of the Ident at record r comes to.
#[tactic(auto, unfolding(crate::specs::Notes::load_noted, crate::specs::Notes::load_of))]
pub fn load_of(notes: &Notes, r: usize) -> Result<Access, RunRule>
    ensures { access_of result ≡ load_noted notes.now r }
{
    load_access(word_at(notes, LOADS, r))
}

// What a store to the Ident at record r comes to.
#[tactic(auto, unfolding(crate::specs::Notes::store_noted, crate::specs::Notes::store_of))]
pub fn store_of(notes: &Notes, r: usize) -> Result<Access, RunRule>
    ensures { access_of result ≡ store_noted notes.now r }
{
    store_access(word_at(notes, STORES, r))
}

fn word(code: u32, index: u32) -> u32
    requires { code ≤ 16 }
    ensures { result ≡ code * 4096 + index % 4096 }
{
    code * 4096 + index % 4096
}

fn load_word(access: Result<Access, RunRule>) -> u32
    ensures { result ≡ load_note (access_of access) }
{
    match access {
        Ok(Access::Local(id)) => word(LOAD_LOCAL, id.0),
        Ok(Access::Global(id)) => word(LOAD_GLOBAL, id.0),
        Ok(Access::Upvalue(id)) => word(LOAD_UPVALUE, id.0),
        Err(rule) => word(rule.number(), 0),
    }
}

fn store_word(access: Result<Access, RunRule>) -> u32
    ensures { result ≡ store_note (access_of access) }
{
    match access {
        Ok(Access::Local(id)) => word(STORE_LOCAL, id.0),
        Ok(Access::Global(id)) => word(STORE_GLOBAL, id.0),
        Ok(Access::Upvalue(_)) => word(NO_STORE, 0),
        Err(rule) => word(rule.number(), 0),
    }
}

// Record r is the earlier sibling of the one at sibling; 0 is an absent one.
#[tactic(auto, unfolding(crate::specs::Notes::note_earlier))]
pub fn note_earlier(notes: &mut Notes, sibling: usize, r: usize)
    ensures { notes.new ≡ note_earlier notes.old sibling r }
{
    if r < sibling && sibling < RECORDS {
        notes[sibling] = r as u32;
    }
}

// What a load and a store of the Ident at record r come to.
#[tactic(auto, unfolding(crate::specs::Notes::note_ident))]
pub fn note_ident(
    notes: &mut Notes,
    r: usize,
    load: Result<Access, RunRule>,
    store: Result<Access, RunRule>,
)
    ensures { notes.new ≡ note_ident notes.old r (load_note (access_of load)) (store_note (access_of store)) }
{
    if r < RECORDS {
        notes[LOADS + r] = load_word(load);
        notes[STORES + r] = store_word(store);
    }
}
