// load and store: what the Ident comes to in its function, as a marker or a refusal.
ghost use Rattle.std.specs.Prelude.{◌≡◌};
ghost use Rattle.pool.specs.Notes.{load_noted, store_noted};
ghost use Rattle.rules.specs.Step.{Get, Set};

use crate::Context;
use opcode::opcode::OpCode;
use pool::lookup::Access;
use pool::notes::{Notes, load_of, store_of};

impl Context<'_> {
    ghost use Rattle.context.specs.Sinks.{used};

    pub fn load(&mut self, notes: &Notes, ident: usize)
        ensures { self.new ≡ used Get ident (load_noted notes.now ident) self.old }
    {
        match load_of(notes, ident) {
            Ok(Access::Local(id)) => self.push_code(OpCode::LoadLocal(id)),
            Ok(Access::Upvalue(id)) => self.push_code(OpCode::LoadUpvalue(id)),
            Ok(Access::Global(id)) => self.push_code(OpCode::LoadGlobal(id)),
            Err(rule) => self.refuse(rule, ident),
        }
    }

    // A store never comes to an upvalue.
    pub fn store(&mut self, notes: &Notes, ident: usize)
        ensures { self.new ≡ used Set ident (store_noted notes.now ident) self.old }
    {
        match store_of(notes, ident) {
            Ok(Access::Local(id)) => self.push_code(OpCode::StoreLocal(id)),
            Ok(Access::Global(id)) => self.push_code(OpCode::StoreGlobal(id)),
            Ok(Access::Upvalue(_)) => {}
            Err(rule) => self.refuse(rule, ident),
        }
    }
}
