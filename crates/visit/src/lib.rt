// The visitors: visit_expr and all that it reaches, one cycle of calls with the records left falling at each call. Record 0 stands for an absent one.
#![tactic(auto, using(crate::proofs::FallLaws::first_falls, crate::proofs::FallLaws::next_falls, crate::proofs::FallLaws::nth_falls, crate::proofs::FallLaws::level_some))]

ghost use Rattle.rules.specs.Step.{Expr, Callee, Target, Before};
ghost use Rattle.rules.specs.Arms.{block_steps, fn_steps, stream_steps, table_steps, list_steps, binary_steps, short_steps, member_steps, call_steps, if_steps, loop_steps};
ghost use Rattle.rules.specs.Arms.{while_steps, for_steps, return_steps, import_steps, glo_assign_steps, assign_steps, assign_op_steps, short_assign_steps};
ghost use Rattle.rules.specs.Arms.{assign_unpack_steps, assign_multi_steps};
ghost use Rattle.rules.specs.Patterns.{match_steps};
ghost use Rattle.context.specs.Does.{through};
ghost use Rattle.plain.specs.Operators.{call_of, short_jump};
ghost use Rattle.visit.specs.Arms.{later_steps, last_steps, property_steps};
ghost use Rattle.visit.specs.Forms.{Goes, Follows, Visits, Nests, Bodies, Catches};

use context::Context;
use context::function::function_id;
use context::label::next_label;
use context::tree::Tree;
use context::word::capped;
use opcode::index::LabelId;
use opcode::member::MemberKind;
use opcode::opcode::OpCode;
use opcode::operator::BinOp;
use pattern::cases::patterns;
use plain::assign::{after, copies};
use plain::children::{argument_count, arguments_len, is_tail, name_of, params_len};
use plain::import::{import_item, simple};
use plain::leaf::{break_loop, continue_loop, effect, params, push_return_label, registers};
use plain::loops::{end_for, iterate, targets};
use plain::member::{
    is_meta, is_method, is_unlabelled, left_property, property_of, push_get, push_safe_jump,
    push_set,
};
use plain::operator::{
    binary_operator, is_short_assign, push_binary, push_calling, push_short_jump, push_unary,
    unary_operator,
};
use plain::siblings::{nth, width};
use pool::notes::earlier;
use pool::value::ConstValue;
use rules::error::ErrorKind;
use tables::ast::{detail, first, flag, function_kind, import_kind, kind, next, p, q};
use tables::detail;
use tables::kind::{FunctionKind, ImportKind, Kind};
use tables::refusal::RunRule;

// visit_expr
#[cycle(visitors)]
pub fn expr(tree: &Tree, cx: &mut Context, r: usize)
    ensures { Visits tree cx Expr r }
{
    if r == 0 {
        return;
    }
    match kind(tree.records, r) {
        Kind::Lit => cx.push_lit(tree.records, r),
        Kind::Ident => cx.load(tree.notes, r),
        Kind::Paren => expr(tree, cx, first(tree.records, r)),
        Kind::Block => block(tree, cx, r),
        Kind::Fn => func(tree, cx, r),
        Kind::Effect => effect(tree, cx, r),
        Kind::Table => table(tree, cx, r),
        Kind::List => list(tree, cx, r),
        Kind::Unary => {
            expr(tree, cx, first(tree.records, r));
            push_unary(cx, unary_operator(tree.records, r))
        }
        Kind::Binary => binary(tree, cx, r),
        Kind::TypeCheck => {
            expr(tree, cx, first(tree.records, r));
            cx.push_code(OpCode::TypeCheck(detail(tree.records, r)))
        }
        Kind::Member => member(tree, cx, r),
        Kind::Call => call(tree, cx, r, false),
        _ => arm(tree, cx, r),
    }
}

// visit_expr's further arms
#[cycle(visitors)]
fn arm(tree: &Tree, cx: &mut Context, r: usize)
    ensures { Follows tree cx r later_steps }
{
    match kind(tree.records, r) {
        Kind::If => cond(tree, cx, r),
        Kind::Match => cases(tree, cx, r),
        Kind::Loop => repeat(tree, cx, r),
        Kind::While => whilst(tree, cx, r),
        Kind::For => each(tree, cx, r),
        Kind::Break => break_loop(tree, cx, r),
        Kind::Continue => continue_loop(tree, cx, r),
        Kind::Return => ret(tree, cx, r),
        Kind::Import => import(tree, cx, r),
        Kind::GloAssign => glo(tree, cx, r),
        Kind::Assign => assign(tree, cx, r),
        Kind::AssignOp => update(tree, cx, r),
        Kind::AssignUnpack => unpack(tree, cx, r),
        Kind::AssignMulti => multi(tree, cx, r),
        _ => rest(tree, cx, r),
    }
}

// The kinds that are no expression, visited where they stand. The first is visit_function.
#[cycle(visitors)]
fn rest(tree: &Tree, cx: &mut Context, r: usize)
    ensures { Follows tree cx r last_steps }
{
    match kind(tree.records, r) {
        Kind::Function => {
            inner(tree, cx, r);
            let function_id = function_id(tree.records, r);
            cx.push_load_const(tree.records, ConstValue::Function(function_id));
            if function_kind(tree.records, r) == FunctionKind::Do {
                cx.push_code(OpCode::Call(0))
            }
        }
        Kind::Params => params(tree, cx, r),
        Kind::Handler => catch(tree, cx, r),
        Kind::Case => {
            let body = nth(
                tree.records,
                first(tree.records, r),
                p(tree.records, r) as usize,
            );
            expr(tree, cx, body)
        }
        Kind::Item => import_item(tree, cx, r),
        _ => {}
    }
}

// gen_function_code inside another function, where the functions inside are walked.
#[cycle(visitors)]
pub fn inner(tree: &Tree, cx: &mut Context, r: usize)
    ensures { Nests tree cx r }
{
    if !cx.nest {
        return;
    }
    if !cx.goes_on() {
        return;
    }
    if !cx.is_numbered(tree.records, r) {
        return cx.refuse(RunRule::Skipped, r);
    }
    let outer = cx.begin_function(r);
    body(tree, cx, r);
    cx.keep_error();
    cx.end_function(outer)
}

// gen_function_code: the function's own stream.
#[cycle(visitors)]
pub fn body(tree: &Tree, cx: &mut Context, r: usize)
    ensures { Follows tree cx r (λ sc w k. stream_steps w) }
{
    let params = first(tree.records, r);
    let block = next(tree.records, params);
    expr(tree, cx, params);
    expr(tree, cx, block);
    if function_kind(tree.records, r) == FunctionKind::Do {
        cx.push_code(OpCode::Pop);
        cx.push_code(OpCode::LoadLocals);
        return cx.push_code(OpCode::Return);
    }
    cx.push_code(OpCode::Return)
}

// visit_block: an expression's error is kept.
#[cycle(visitors)]
fn block(tree: &Tree, cx: &mut Context, r: usize)
    ensures { Follows tree cx r (λ sc. block_steps) }
{
    let mut child = first(tree.records, r);
    if child == 0 {
        return cx.push_null(tree.records);
    }
    while cx.goes_on() {
        expr(tree, cx, child);
        cx.keep_error();
        child = next(tree.records, child);
        if child == 0 {
            return;
        }
        cx.push_code(OpCode::Pop);
    }
}

// n siblings from this one on.
#[cycle(visitors)]
fn all(tree: &Tree, cx: &mut Context, item: usize, n: usize)
    ensures { Goes tree cx (λ e c. through e c Expr n item) }
{
    let mut at = item;
    for _ in 0..n {
        if at == 0 {
            return;
        }
        expr(tree, cx, at);
        at = next(tree.records, at);
    }
}

// ExprKind::Fn
#[cycle(visitors)]
fn func(tree: &Tree, cx: &mut Context, r: usize)
    ensures { Follows tree cx r (λ sc. fn_steps) }
{
    if !flag(tree.records, r) {
        return expr(tree, cx, first(tree.records, r));
    }
    let name = first(tree.records, r);
    let function = next(tree.records, name);
    expr(tree, cx, function);
    cx.store(tree.notes, name);
    cx.push_null(tree.records)
}

// ExprKind::Table
#[cycle(visitors)]
fn table(tree: &Tree, cx: &mut Context, r: usize)
    ensures { Follows tree cx r (λ sc. table_steps) }
{
    let properties = first(tree.records, r);
    let n = width(tree.records, properties);
    all(tree, cx, properties, n);
    cx.push_code(OpCode::BuildTable(capped(n / 2)))
}

// ExprKind::List
#[cycle(visitors)]
fn list(tree: &Tree, cx: &mut Context, r: usize)
    ensures { Follows tree cx r (λ sc. list_steps) }
{
    let items = first(tree.records, r);
    let n = width(tree.records, items);
    all(tree, cx, items, n);
    cx.push_code(OpCode::BuildList(capped(n)))
}

// ExprKind::Binary
#[cycle(visitors)]
fn binary(tree: &Tree, cx: &mut Context, r: usize)
    ensures { Follows tree cx r (λ sc. binary_steps) }
{
    let operator = binary_operator(tree.records, r);
    match operator {
        BinOp::And => short_circuit(tree, cx, r, BinOp::And),
        BinOp::Or => short_circuit(tree, cx, r, BinOp::Or),
        _ => {
            let left = first(tree.records, r);
            let right = next(tree.records, left);
            expr(tree, cx, left);
            expr(tree, cx, right);
            push_binary(cx, operator, r)
        }
    }
}

// BinOp::And or BinOp::Or
#[cycle(visitors)]
fn short_circuit(tree: &Tree, cx: &mut Context, r: usize, operator: BinOp)
    ensures { Follows tree cx r (λ sc w k. short_steps (short_jump operator)) }
{
    let left = first(tree.records, r);
    let right = next(tree.records, left);
    let label = cx.get_label();
    expr(tree, cx, left);
    push_short_jump(cx, operator, label);
    expr(tree, cx, right);
    cx.push_label(label)
}

// ExprKind::Member
#[cycle(visitors)]
fn member(tree: &Tree, cx: &mut Context, r: usize)
    ensures { Follows tree cx r member_steps }
{
    let table = first(tree.records, r);
    let property = property_of(tree.records, r);
    expr(tree, cx, table);
    if is_unlabelled(tree, cx, r) {
        prop(tree, cx, r, property);
        return push_get(cx, property);
    }
    let safe_label = cx.get_label();
    push_safe_jump(tree, cx, r, safe_label);
    prop(tree, cx, r, property);
    push_get(cx, property);
    cx.push_label(safe_label)
}

// visit_member_property, of a Member or a Left
#[cycle(visitors)]
fn prop(tree: &Tree, cx: &mut Context, r: usize, property: MemberKind)
    ensures { Follows tree cx r (λ sc. property_steps property) }
{
    let before = first(tree.records, r);
    let held = next(tree.records, before);
    match property {
        MemberKind::Bracket => expr(tree, cx, held),
        MemberKind::Dot | MemberKind::DoubleColon => {
            let name = name_of(tree.records, held);
            cx.push_load_const(tree.records, ConstValue::Str(name))
        }
        _ => {}
    }
}

// ExprKind::Call; one that is returned ends in ReturnCall.
#[cycle(visitors)]
fn call(tree: &Tree, cx: &mut Context, r: usize, tail: bool)
    ensures { Follows tree cx r (λ sc. call_steps (call_of tail)) }
{
    let callee = first(tree.records, r);
    let arguments = next(tree.records, callee);
    let n = arguments_len(tree.records, arguments);
    let handlers = nth(tree.records, arguments, n);
    let argument_count = argument_count(tree.records, callee, n);
    called(tree, cx, callee);
    all(tree, cx, arguments, n);
    if handlers == 0 {
        return push_calling(cx, tail, argument_count);
    }
    let end_label = cx.get_label();
    let handler_label = registers(tree, cx, handlers);
    cx.push_code(OpCode::Call(argument_count));
    cx.push_code(OpCode::Jump(end_label));
    bodies(tree, cx, handlers, handler_label, end_label);
    cx.push_label(end_label)
}

// A Call's callee: a method's table is its first argument.
#[cycle(visitors)]
fn called(tree: &Tree, cx: &mut Context, callee: usize)
    ensures { Visits tree cx Callee callee }
{
    if callee == 0 {
        return;
    }
    if !is_method(tree.records, callee) {
        return expr(tree, cx, callee);
    }
    let table = first(tree.records, callee);
    let property = property_of(tree.records, callee);
    expr(tree, cx, table);
    if is_unlabelled(tree, cx, callee) {
        cx.push_code(OpCode::Copy(1));
        prop(tree, cx, callee, property);
        push_get(cx, property);
        return cx.push_code(OpCode::Swap(2));
    }
    let safe_label = cx.get_label();
    push_safe_jump(tree, cx, callee, safe_label);
    cx.push_code(OpCode::Copy(1));
    prop(tree, cx, callee, property);
    push_get(cx, property);
    cx.push_code(OpCode::Swap(2));
    cx.push_label(safe_label)
}

// The Handlers or Cases from this one on: each behind its label, the labels one behind the other, and a jump to the end.
#[cycle(visitors)]
fn bodies(tree: &Tree, cx: &mut Context, first: usize, first_label: LabelId, end_label: LabelId)
    ensures { Bodies tree cx first first_label.0 end_label.0 }
{
    let mut at = first;
    let mut label = first_label;
    while at != 0 {
        cx.push_label(label);
        expr(tree, cx, at);
        cx.push_code(OpCode::Jump(end_label));
        at = next(tree.records, at);
        label = next_label(label);
    }
}

// A Handler behind its label.
#[cycle(visitors)]
fn catch(tree: &Tree, cx: &mut Context, handler: usize)
    ensures { Catches tree cx handler }
{
    let effect = first(tree.records, handler);
    let params = next(tree.records, effect);
    let body = next(tree.records, params);
    let value = ConstValue::Effect(capped(handler));
    cx.push_load_const(tree.records, value);
    cx.push_code(OpCode::CheckEffect(params_len(tree.records, params)));
    expr(tree, cx, params);
    expr(tree, cx, body)
}

// ExprKind::If
#[cycle(visitors)]
fn cond(tree: &Tree, cx: &mut Context, r: usize)
    ensures { Follows tree cx r (λ sc. if_steps) }
{
    let test = first(tree.records, r);
    let consequent = next(tree.records, test);
    let false_label = cx.get_label();
    let end_label = cx.get_label();
    expr(tree, cx, test);
    cx.push_code(OpCode::PopJumpIfFalse(false_label));
    expr(tree, cx, consequent);
    cx.push_code(OpCode::Jump(end_label));
    cx.push_label(false_label);
    if flag(tree.records, r) {
        let alternate = next(tree.records, consequent);
        expr(tree, cx, alternate);
        return cx.push_label(end_label);
    }
    cx.push_null(tree.records);
    cx.push_label(end_label)
}

// ExprKind::Match
#[cycle(visitors)]
fn cases(tree: &Tree, cx: &mut Context, r: usize)
    ensures { Follows tree cx r (λ sc. match_steps) }
{
    let value = first(tree.records, r);
    // A Match without a value takes no label; no accepted table has one.
    if value == 0 {
        return;
    }
    let cases = next(tree.records, value);
    let end_label = cx.get_label();
    expr(tree, cx, value);
    let block_label = cx.get_labels(width(tree.records, cases));
    patterns(tree, cx, cases, block_label);
    cx.push_null(tree.records);
    cx.push_code(OpCode::Jump(end_label));
    bodies(tree, cx, cases, block_label, end_label);
    cx.push_label(end_label);
    cx.push_code(OpCode::Swap(2));
    cx.push_code(OpCode::Pop)
}

// ExprKind::Loop
#[cycle(visitors)]
fn repeat(tree: &Tree, cx: &mut Context, r: usize)
    ensures { Follows tree cx r (λ sc. loop_steps) }
{
    let body = first(tree.records, r);
    let continue_label = cx.get_label();
    let break_label = cx.get_label();
    cx.begin_loop(continue_label);
    cx.push_label(continue_label);
    expr(tree, cx, body);
    cx.push_code(OpCode::Pop);
    cx.push_code(OpCode::JumpBackEdge(continue_label));
    cx.push_label(break_label);
    cx.push_null(tree.records);
    cx.end_loop()
}

// ExprKind::While
#[cycle(visitors)]
fn whilst(tree: &Tree, cx: &mut Context, r: usize)
    ensures { Follows tree cx r (λ sc. while_steps) }
{
    let test = first(tree.records, r);
    let body = next(tree.records, test);
    let continue_label = cx.get_label();
    let break_label = cx.get_label();
    cx.begin_loop(continue_label);
    cx.push_label(continue_label);
    expr(tree, cx, test);
    cx.push_code(OpCode::PopJumpIfFalse(break_label));
    expr(tree, cx, body);
    cx.push_code(OpCode::Pop);
    cx.push_code(OpCode::JumpBackEdge(continue_label));
    cx.push_label(break_label);
    cx.push_null(tree.records);
    cx.end_loop()
}

// ExprKind::For
#[cycle(visitors)]
fn each(tree: &Tree, cx: &mut Context, r: usize)
    ensures { Follows tree cx r (λ sc. for_steps) }
{
    let left = first(tree.records, r);
    let n = p(tree.records, r);
    let right = nth(tree.records, left, n as usize);
    let body = next(tree.records, right);
    let continue_label = cx.get_label();
    let break_label = cx.get_label();
    let body_label = cx.get_label();
    cx.begin_loop(continue_label);
    expr(tree, cx, right);
    iterate(tree, cx, continue_label, body_label);
    cx.push_code(OpCode::Jump(break_label));
    cx.push_label(body_label);
    cx.push_code(OpCode::MarkAddStackSize(3));
    cx.push_code(OpCode::Pop);
    targets(tree, cx, left, n);
    expr(tree, cx, body);
    end_for(tree, cx, continue_label, break_label)
}

// ExprKind::Return
#[cycle(visitors)]
fn ret(tree: &Tree, cx: &mut Context, r: usize)
    ensures { Follows tree cx r return_steps }
{
    if cx.is_in_do(tree.records) {
        return cx.cut(tree.records, ErrorKind::ReturnOutsideFunction, r);
    }
    let argument = first(tree.records, r);
    push_return_label(cx);
    if is_tail(tree.records, argument) {
        call(tree, cx, argument, true);
        return cx.push_null(tree.records);
    }
    expr(tree, cx, argument);
    cx.push_code(OpCode::Return);
    cx.push_null(tree.records)
}

// ExprKind::Import
#[cycle(visitors)]
fn import(tree: &Tree, cx: &mut Context, r: usize)
    ensures { Follows tree cx r (λ sc. import_steps) }
{
    cx.push_import(tree.records, q(tree.records, r));
    match import_kind(tree.records, r) {
        ImportKind::Simple | ImportKind::WithAlias => {
            simple(tree, cx, r);
            cx.push_null(tree.records)
        }
        ImportKind::Items => {
            let items = nth(
                tree.records,
                first(tree.records, r),
                p(tree.records, r) as usize,
            );
            all(tree, cx, items, width(tree.records, items));
            cx.push_code(OpCode::Pop);
            cx.push_null(tree.records)
        }
        ImportKind::Glob => {
            cx.push_code(OpCode::ImportGlob);
            cx.push_null(tree.records)
        }
    }
}

// ExprKind::GloAssign
#[cycle(visitors)]
fn glo(tree: &Tree, cx: &mut Context, r: usize)
    ensures { Follows tree cx r (λ sc. glo_assign_steps) }
{
    let left = first(tree.records, r);
    let right = next(tree.records, left);
    expr(tree, cx, right);
    cx.store(tree.notes, left);
    cx.push_null(tree.records)
}

// ExprKind::Assign
#[cycle(visitors)]
fn assign(tree: &Tree, cx: &mut Context, r: usize)
    ensures { Follows tree cx r (λ sc. assign_steps) }
{
    let left = first(tree.records, r);
    let right = next(tree.records, left);
    expr(tree, cx, right);
    target(tree, cx, left);
    cx.push_null(tree.records)
}

// visit_assign_left
#[cycle(visitors)]
fn target(tree: &Tree, cx: &mut Context, left: usize)
    ensures { Visits tree cx Target left }
{
    if left == 0 {
        return;
    }
    if kind(tree.records, left) != Kind::Left {
        return;
    }
    let ident = first(tree.records, left);
    if detail(tree.records, left) == detail::PLAIN {
        return cx.store(tree.notes, ident);
    }
    let property = left_property(tree.records, left);
    cx.load(tree.notes, ident);
    prop(tree, cx, left, property);
    push_set(cx, property);
    cx.store(tree.notes, ident)
}

// ExprKind::AssignOp
#[cycle(visitors)]
fn update(tree: &Tree, cx: &mut Context, r: usize)
    ensures { Follows tree cx r (λ sc. assign_op_steps) }
{
    let left = first(tree.records, r);
    let right = next(tree.records, left);
    let operator = binary_operator(tree.records, r);
    if is_short_assign(tree.records, operator, left) {
        return short(tree, cx, r, operator);
    }
    fetch(tree, cx, left);
    expr(tree, cx, right);
    push_binary(cx, operator, r);
    after(tree, cx, left);
    cx.push_null(tree.records)
}

// `and=` and `or=` on a plain name, where the Rust panics (document 02, job 1): as And and Or, with the Left loaded before and stored after.
#[cycle(visitors)]
fn short(tree: &Tree, cx: &mut Context, r: usize, operator: BinOp)
    ensures { Follows tree cx r (λ sc w k. short_assign_steps (short_jump operator)) }
{
    let left = first(tree.records, r);
    let right = next(tree.records, left);
    let label = cx.get_label();
    fetch(tree, cx, left);
    push_short_jump(cx, operator, label);
    expr(tree, cx, right);
    cx.push_label(label);
    after(tree, cx, left);
    cx.push_null(tree.records)
}

// An AssignOp's Left before the right side: its old value is loaded.
#[cycle(visitors)]
fn fetch(tree: &Tree, cx: &mut Context, left: usize)
    ensures { Visits tree cx Before left }
{
    if left == 0 {
        return;
    }
    if kind(tree.records, left) != Kind::Left {
        return;
    }
    cx.load(tree.notes, first(tree.records, left));
    if detail(tree.records, left) == detail::PLAIN {
        return;
    }
    let property = left_property(tree.records, left);
    if is_meta(property) {
        cx.push_code(OpCode::Copy(1));
        return push_get(cx, property);
    }
    prop(tree, cx, left, property);
    cx.push_code(OpCode::Copy(2));
    cx.push_code(OpCode::Copy(2));
    push_get(cx, property)
}

// ExprKind::AssignUnpack
#[cycle(visitors)]
fn unpack(tree: &Tree, cx: &mut Context, r: usize)
    ensures { Follows tree cx r (λ sc. assign_unpack_steps) }
{
    let left = first(tree.records, r);
    let n = p(tree.records, r);
    let right = nth(tree.records, left, n as usize);
    expr(tree, cx, right);
    copies(cx, n);
    let mut at = left;
    for i in 0..n {
        cx.push_load_const(tree.records, ConstValue::Int(i, 0));
        cx.push_code(OpCode::GetItem);
        target(tree, cx, at);
        at = next(tree.records, at);
    }
    cx.push_null(tree.records)
}

// ExprKind::AssignMulti
#[cycle(visitors)]
fn multi(tree: &Tree, cx: &mut Context, r: usize)
    ensures { Follows tree cx r (λ sc. assign_multi_steps) }
{
    let left = first(tree.records, r);
    let n = p(tree.records, r) as usize;
    if n + n != width(tree.records, left) {
        return cx.refuse(RunRule::Lengths, r);
    }
    let right = nth(tree.records, left, n);
    all(tree, cx, right, n);
    let mut at = nth(tree.records, left, n.saturating_sub(1));
    for _ in 0..n {
        // Never: a Left stands behind its record, and a note names the sibling before it.
        if at <= r {
            return;
        }
        target(tree, cx, at);
        at = earlier(tree.notes, at);
    }
    cx.push_null(tree.records)
}
