// Items of a copy of what is on the stack.
ghost use Rattle.tables.specs.Record.{word};
ghost use Rattle.pool.specs.Value.{int, lit};
ghost use Rattle.plain.specs.Leaves.{GetsItem};

use context::Context;
use context::tree::Tree;
use opcode::opcode::OpCode;
use pool::value::ConstValue;

// Item i.
pub fn push_item(tree: &Tree, cx: &mut Context, i: u32)
    ensures { GetsItem tree.now.records.now cx.old
        cx.new (int i) }
{
    cx.push_code(OpCode::Copy(1));
    cx.push_load_const(tree.records, ConstValue::Int(i, 0));
    cx.push_code(OpCode::GetItem)
}

// The value of a key, a Lit.
pub fn push_value(tree: &Tree, cx: &mut Context, key: usize)
    ensures { GetsItem tree.now.records.now cx.old
        cx.new
        (lit (word tree.now.records.now key 1) (word tree.now.records.now key 2) (word tree.now.records.now key 3)) }
{
    cx.push_code(OpCode::Copy(1));
    cx.push_lit(tree.records, key);
    cx.push_code(OpCode::GetItem)
}
