//! Programs with sugar (CTM section 2.6) as trees. An identifier is the number of declarations of the text that enclose its
//! own. Each value and statement begins with its place: how many symbols are left at its first one, the end of the text
//! counted.

use crate::built_in::BuiltIn;
use crate::stmt::{Op, Pattern, Selector, TestOp};
use tree_node::{Feature, Integer, Seq, Text};

/// A field of a record: an identifier, or the number of one of the record's values that are no variables, from 0, in the
/// order of the text.
#[derive(Clone, Copy, Debug, PartialEq, Eq)]
pub enum Field {
    Variable(u32),
    Value(u32),
}

/// What is made of parts: the result of an operator or of a test on two, what is selected in one, or what a procedure or a
/// built-in call gives in its last argument, the others being the parts.
#[derive(Drop)]
pub enum Operation {
    Calc(Op),
    Test(TestOp),
    Select(Selector),
    Call(u32),
    BuiltIn(BuiltIn),
}

/// What a statement does with parts: the call of a procedure, a built-in call, or an exception of one.
#[derive(Clone, Copy, Debug, PartialEq, Eq)]
pub enum Action {
    Call(u32),
    BuiltIn(BuiltIn),
    Raise,
}

/// A value, from its place on.
#[derive(Drop)]
#[cycle(sugar)]
pub enum Value {
    Variable(usize, u32),
    Integer(usize, Integer),
    Atom(usize, Text),
    /// The label, the fields in ascending order of features, and the values that these number (`Field::Value`). In the trees of
    /// texts these are no variables, in the order of the text, each in one field; the limits of trees do not ask for it.
    Record(usize, Text, Seq<(Feature, Field)>, Vec<Value>),
    /// The record H|T of a head and a tail, or of heads before these, where each begins a list that the next one goes on: the
    /// heads stand from the last to the first, so that one more is put behind them, and a list takes no memory a head.
    Pair(usize, Box<Pair>, Vec<Link>),
    Apply(usize, Operation, Vec<Value>),
    /// The number of formals, and the body.
    Proc(usize, u8, Vec<Statement>),
    /// The number of formals, and the value that the function gives.
    Fun(usize, u8, Box<Value>),
    If(usize, Box<Value>, Box<Value>, Box<Value>),
    /// The value that is matched, the clauses, and the value behind `else`. Texts have one clause at least; the limits of trees do
    /// not ask for it, and with none the value behind `else` is what it gives.
    Case(usize, Box<Value>, Vec<ValueClause>, Box<Value>),
    /// A value in round brackets.
    Brackets(usize, Box<Value>),
}

/// A head and a tail.
#[derive(Drop)]
#[cycle(sugar)]
pub enum Pair {
    Of(Value, Value),
}

/// A head before a list, which begins at this place.
#[derive(Drop)]
#[cycle(sugar)]
pub enum Link {
    Before(usize, Value),
}

/// A clause of a `case` that is a value: its pattern and its value.
#[derive(Drop)]
#[cycle(sugar)]
pub enum ValueClause {
    Then(Pattern, Value),
}

/// A statement, from its place on. Bodies have one statement at least.
#[derive(Drop)]
#[cycle(sugar)]
pub enum Statement {
    Skip(usize),
    Tell(usize, u32, Value),
    Apply(usize, Action, Vec<Value>),
    /// How many identifiers are declared, and the body.
    Local(usize, u32, Vec<Statement>),
    Thread(usize, Option<Integer>, Vec<Statement>),
    If(usize, Value, Vec<Statement>, Vec<Statement>),
    /// The value that is matched, the clauses, one at least, and the statements behind `else`.
    Case(usize, Value, Vec<Clause>, Vec<Statement>),
    /// The statements that are tried, and the handler.
    Try(usize, Vec<Statement>, Vec<Statement>),
    /// The statements that `finally` follows, and those behind it.
    Finally(usize, Vec<Statement>, Vec<Statement>),
}

/// A clause of a `case` that is a statement: its pattern and its statements.
#[derive(Drop)]
#[cycle(sugar)]
pub enum Clause {
    Then(Pattern, Vec<Statement>),
}
