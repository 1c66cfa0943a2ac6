//! Trees made of their parts.

ghost use Rattle.std.specs.Prelude.{◌≡◌, ◌≤◌, [], length, IfOk, OnOk};
ghost use Rattle.kernel_syntax.specs.Sugar.{no_values, new_of, no_statements, statement_and};
ghost use Rattle.kernel_syntax.specs.Sugar as sugar;
ghost use Rattle.kernel_syntax.specs.SugarView.{value_of, values_in, value_clauses_in, statement_of, statements_in, clauses_in};
ghost use Rattle.oz_grammar.specs.Scoping.{has_feature, place_feature, with_field};
ghost use Rattle.oz_grammar.specs.Table.{features_in};
ghost use Rattle.surface_grammar.specs.Points.{is_given};
ghost use Rattle.kernel_syntax.specs.Sugar.{value_and};
ghost use Rattle.kernel_syntax.specs.declared.sugar.Operation.TheVariants as operations;
ghost use Rattle.kernel_syntax.specs.declared.sugar.Action.TheVariants as actions;
ghost use Rattle.surface_grammar.specs.Trees.{with_last, record_value, pair_value, call_value, call_statement};
ghost use Rattle.surface_grammar.specs.Reading.{with_one, with_statement, with_value_clause, with_clause};
ghost use Rattle.surface_parts.specs.Slots.{slot_point, so_far};

use kernel_syntax::sugar::{
    Action, Clause, Field, Link, Operation, Pair, Statement, Value, ValueClause,
};
use kernel_syntax::{BuiltIn, Pattern, Selector};
use std::alloc::{AllocError, Global};
use tree_node::{Feature, Integer, Seq, Text, compare_features, equal_feature};

/// The fields of a record so far, in the order of features; the values among them that are no variables, in the order of the
/// text; and the place of the next field without a feature.
#[derive(Drop)]
pub struct Fields {
    pub slots: Vec<(Feature, Field)>,
    pub values: Vec<Value>,
    pub next: u32,
}

/// One value more. Room is made for it first: so the value is moved once.
#[inline(always)]
#[tactic(auto, using(crate::proofs::Rows::value_pushed))]
pub fn push_value(values: &mut Vec<Value>, value: Value) -> Result<(), AllocError>
    ensures { OnOk result (values_in values.new.items ≡ with_last (values_in values.old.items) (value_of value)) }
{
    values.reserve(1)?;
    values.push_reserved(value);
    Ok(())
}

/// A sequence of one statement.
pub fn one_statement(alloc: Global, statement: Statement) -> Result<Vec<Statement>, AllocError>
    ensures { IfOk result (λ v. statements_in v.items ≡ statement_and (statement_of statement) no_statements) }
{
    Ok(vec![in alloc; statement]?)
}

/// A statement that begins a sequence, with room for more behind it.
#[tactic(auto, using(crate::proofs::Rows::statement_pushed))]
pub fn first_statement(alloc: Global, first: Statement) -> Result<Vec<Statement>, AllocError>
    ensures { IfOk result (λ v. statements_in v.items ≡ statement_and (statement_of first) no_statements) }
{
    let mut statements = Vec::with_capacity(alloc, 4)?;
    push_statement(&mut statements, first)?;
    Ok(statements)
}

/// One statement more. Room is made for it first: so the statement is moved once.
#[inline(always)]
#[tactic(auto, using(crate::proofs::Rows::statement_pushed))]
pub fn push_statement(
    statements: &mut Vec<Statement>,
    statement: Statement,
) -> Result<(), AllocError>
    ensures { OnOk result (statements_in statements.new.items ≡ with_statement (statements_in statements.old.items) (statement_of statement)) }
{
    statements.reserve(1)?;
    statements.push_reserved(statement);
    Ok(())
}

/// One clause more, of a value.
#[tactic(auto, using(crate::proofs::Rows::value_clause_pushed))]
pub fn push_value_clause(
    clauses: &mut Vec<ValueClause>,
    pattern: Pattern,
    value: Value,
) -> Result<(), AllocError>
    ensures { OnOk result (value_clauses_in clauses.new.items ≡ with_value_clause (value_clauses_in clauses.old.items) pattern (value_of value)) }
{
    clauses.push(ValueClause::Then(pattern, value))?;
    Ok(())
}

/// One clause more, of a statement.
#[tactic(auto, using(crate::proofs::Rows::clause_pushed))]
pub fn push_clause(
    clauses: &mut Vec<Clause>,
    pattern: Pattern,
    body: Vec<Statement>,
) -> Result<(), AllocError>
    ensures { OnOk result (clauses_in clauses.new.items ≡ with_clause (clauses_in clauses.old.items) pattern (statements_in body.items)) }
{
    clauses.push(Clause::Then(pattern, body))?;
    Ok(())
}

/// Whether some field has a feature.
fn has_feature(slots: &[(Feature, Field)], feature: &Feature) -> bool
    ensures { result ≡ has_feature slots.now feature.now }
{
    slots.iter().any(|slot| equal_feature(&slot.0, feature))
}

/// Whether a feature is among those of the fields.
#[tactic(auto, using(crate::proofs::Slots::given_of_slots))]
pub fn is_given(slots: &[(Feature, Field)], feature: &Feature) -> bool
    ensures { result ≡ is_given (features_in slots.now) feature.now }
{
    has_feature(slots, feature)
}

/// How many fields stand before the first of a greater feature.
fn slot_point(feature: &Feature, slots: &[(Feature, Field)]) -> usize
    ensures value { result ≡ slot_point feature.now slots.now }
    ensures within { result ≤ length slots.now }
{
    for (at, slot) in slots.iter().enumerate() {
        if compare_features(feature, &slot.0).is_lt() {
            return at;
        }
    }
    slots.len()
}

/// One field more, in the order of features.
#[inline(always)]
#[tactic(auto, using(crate::proofs::Slots::inserted, crate::proofs::Slots::appended))]
fn add_slot(
    slots: &mut Vec<(Feature, Field)>,
    feature: Feature,
    field: Field,
) -> Result<(), AllocError>
    ensures { OnOk result (slots.new.items ≡ with_field feature field slots.old.items) }
{
    let at = slot_point(&feature, slots.as_slice());
    if at == slots.len() {
        slots.reserve(1)?;
        slots.push_reserved((feature, field));
        return Ok(());
    }
    match slots.insert(at, (feature, field)) {
        Ok(()) => Ok(()),
        Err(_) => Err(AllocError),
    }
}

/// No fields.
pub fn no_fields(alloc: Global) -> Fields
    ensures { so_far result.slots.items result.values.items result.next ≡ ([], no_values, 1) }
{
    Fields {
        slots: Vec::new(alloc),
        values: Vec::new(alloc),
        next: 1,
    }
}

/// One field more, of this feature.
#[inline(always)]
pub fn add_field(fields: &mut Fields, feature: Feature, value: Value) -> Result<(), AllocError>
    ensures fields { OnOk result (so_far fields.new.slots.items fields.new.values.items fields.new.next ≡ with_one feature (value_of value) fields.old.next (so_far fields.old.slots.items fields.old.values.items fields.old.next)) }
    ensures next { fields.new.next ≡ fields.old.next }
{
    match value {
        Value::Variable(_, position) => {
            add_slot(&mut fields.slots, feature, Field::Variable(position))
        }
        _ => add_value(fields, feature, value),
    }
}

/// One field more, which is no variable.
#[inline(always)]
#[tactic(auto, using(kernel_syntax::proofs::SugarItems::value_count))]
fn add_value(fields: &mut Fields, feature: Feature, value: Value) -> Result<(), AllocError>
    requires { new_of (value_of value) ≡ 1 }
    ensures fields { OnOk result (so_far fields.new.slots.items fields.new.values.items fields.new.next ≡ with_one feature (value_of value) fields.old.next (so_far fields.old.slots.items fields.old.values.items fields.old.next)) }
    ensures next { fields.new.next ≡ fields.old.next }
{
    if fields.values.len() >= 1 << 31 {
        return Err(AllocError);
    }
    let number = fields.values.len() as u32;
    add_slot(&mut fields.slots, feature, Field::Value(number))?;
    push_value(&mut fields.values, value)
}

/// The feature of a field without one.
pub fn place_feature(place: u32) -> Feature
    ensures { result ≡ place_feature place }
{
    Feature::Int(Integer::new(i128::from(place)))
}

/// A record that has fields.
fn record(left: usize, label: Text, fields: Fields) -> Value
    ensures { value_of result ≡ sugar.Record left label fields.slots.items (values_in fields.values.items) }
{
    Value::Record(left, label, Seq::from_vec(fields.slots), fields.values)
}

/// The record with these fields; without fields it is the atom.
pub fn record_value(left: usize, label: Text, fields: Fields) -> Value
    ensures { value_of result ≡ record_value left label fields.slots.items (values_in fields.values.items) }
{
    if fields.slots.is_empty() {
        return Value::Atom(left, label);
    }
    record(left, label, fields)
}

/// H|T of these values. Before a list it is one head more of the list, which takes no piece of memory of its own.
#[inline(always)]
pub fn pair_value(alloc: Global, left: usize, head: Value, tail: Value) -> Result<Value, AllocError>
    ensures { IfOk result (λ v. value_of v ≡ pair_value left (value_of head) (value_of tail)) }
{
    match tail {
        Value::Pair(place, last, mut heads) => {
            heads.reserve(1)?;
            heads.push_reserved(Link::Before(place, head));
            Ok(Value::Pair(left, last, heads))
        }
        _ => {
            let last = Box::new(alloc, Pair::Of(head, tail))?;
            Ok(Value::Pair(left, last, Vec::new(alloc)))
        }
    }
}

/// What is made of parts.
pub fn apply(left: usize, operation: Operation, parts: Vec<Value>) -> Value
    ensures { value_of result ≡ sugar.Apply left operation (values_in parts.items) }
{
    Value::Apply(left, operation, parts)
}

/// What is selected in a value.
pub fn select(alloc: Global, left: usize, by: Selector, value: Value) -> Result<Value, AllocError>
    ensures { IfOk result (λ v. value_of v ≡ sugar.Apply left (operations.Select by) (value_and (value_of value) no_values)) }
{
    let parts = vec![in alloc; value]?;
    Ok(apply(left, Operation::Select(by), parts))
}

/// What is made of two parts.
pub fn apply_two(
    alloc: Global,
    left: usize,
    operation: Operation,
    first: Value,
    other: Value,
) -> Result<Value, AllocError>
    ensures { IfOk result (λ v. value_of v ≡ sugar.Apply left operation (value_and (value_of first) (value_and (value_of other) no_values))) }
{
    let parts = vec![in alloc; first, other]?;
    Ok(apply(left, operation, parts))
}

/// A call as a value, of what is built in or of a procedure.
pub fn call_value(called: Option<BuiltIn>, left: usize, callee: u32, arguments: Vec<Value>) -> Value
    ensures { value_of result ≡ call_value called left callee (values_in arguments.items) }
{
    match called {
        Some(built_in) => apply(left, Operation::BuiltIn(built_in), arguments),
        None => apply(left, Operation::Call(callee), arguments),
    }
}

/// A procedure.
pub fn procedure(left: usize, count: u8, body: Vec<Statement>) -> Value
    ensures { value_of result ≡ sugar.Proc left count (statements_in body.items) }
{
    Value::Proc(left, count, body)
}

/// A function.
pub fn function(alloc: Global, left: usize, count: u8, body: Value) -> Result<Value, AllocError>
    ensures { IfOk result (λ v. value_of v ≡ sugar.Fun left count (value_of body)) }
{
    Ok(Value::Fun(left, count, Box::new(alloc, body)?))
}

/// A value in round brackets.
pub fn brackets(alloc: Global, left: usize, inner: Value) -> Result<Value, AllocError>
    ensures { IfOk result (λ v. value_of v ≡ sugar.Brackets left (value_of inner)) }
{
    Ok(Value::Brackets(left, Box::new(alloc, inner)?))
}

/// An `if` of values.
pub fn if_value(
    alloc: Global,
    left: usize,
    tested: Value,
    chosen: Value,
    other: Value,
) -> Result<Value, AllocError>
    ensures { IfOk result (λ v. value_of v ≡ sugar.If left (value_of tested) (value_of chosen) (value_of other)) }
{
    let tested = Box::new(alloc, tested)?;
    let chosen = Box::new(alloc, chosen)?;
    let other = Box::new(alloc, other)?;
    Ok(Value::If(left, tested, chosen, other))
}

/// A `case` of values.
pub fn case_value(
    alloc: Global,
    left: usize,
    matched: Value,
    clauses: Vec<ValueClause>,
    other: Value,
) -> Result<Value, AllocError>
    ensures { IfOk result (λ v. value_of v ≡ sugar.Case left (value_of matched) (value_clauses_in clauses.items) (value_of other)) }
{
    let matched = Box::new(alloc, matched)?;
    let other = Box::new(alloc, other)?;
    Ok(Value::Case(left, matched, clauses, other))
}

/// A statement with parts.
pub fn act(left: usize, action: Action, parts: Vec<Value>) -> Statement
    ensures { statement_of result ≡ sugar.Acts left action (values_in parts.items) }
{
    Statement::Apply(left, action, parts)
}

/// A `raise`.
pub fn raise(alloc: Global, left: usize, value: Value) -> Result<Statement, AllocError>
    ensures { IfOk result (λ s. statement_of s ≡ sugar.Acts left actions.Raise (value_and (value_of value) no_values)) }
{
    let parts = vec![in alloc; value]?;
    Ok(act(left, Action::Raise, parts))
}

/// A call as a statement.
pub fn call_statement(
    called: Option<BuiltIn>,
    left: usize,
    callee: u32,
    arguments: Vec<Value>,
) -> Statement
    ensures { statement_of result ≡ call_statement called left callee (values_in arguments.items) }
{
    match called {
        Some(built_in) => act(left, Action::BuiltIn(built_in), arguments),
        None => act(left, Action::Call(callee), arguments),
    }
}

/// A `local`.
pub fn local(left: usize, count: u32, body: Vec<Statement>) -> Statement
    ensures { statement_of result ≡ sugar.Local left count (statements_in body.items) }
{
    Statement::Local(left, count, body)
}

/// A thread.
pub fn thread(left: usize, at: Option<Integer>, body: Vec<Statement>) -> Statement
    ensures { statement_of result ≡ sugar.Thread left at (statements_in body.items) }
{
    Statement::Thread(left, at, body)
}

/// An `if` of statements.
pub fn if_statement(
    left: usize,
    tested: Value,
    chosen: Vec<Statement>,
    other: Vec<Statement>,
) -> Statement
    ensures { statement_of result ≡ sugar.IfStatement left (value_of tested) (statements_in chosen.items) (statements_in other.items) }
{
    Statement::If(left, tested, chosen, other)
}

/// A `case` of statements.
pub fn case_statement(
    left: usize,
    matched: Value,
    clauses: Vec<Clause>,
    other: Vec<Statement>,
) -> Statement
    ensures { statement_of result ≡ sugar.CaseStatement left (value_of matched) (clauses_in clauses.items) (statements_in other.items) }
{
    Statement::Case(left, matched, clauses, other)
}

/// A `try` with a handler.
pub fn try_statement(left: usize, body: Vec<Statement>, handler: Vec<Statement>) -> Statement
    ensures { statement_of result ≡ sugar.Try left (statements_in body.items) (statements_in handler.items) }
{
    Statement::Try(left, body, handler)
}

/// Statements that others follow behind `finally`.
pub fn finally(left: usize, body: Vec<Statement>, last: Vec<Statement>) -> Statement
    ensures { statement_of result ≡ sugar.Finally left (statements_in body.items) (statements_in last.items) }
{
    Statement::Finally(left, body, last)
}
