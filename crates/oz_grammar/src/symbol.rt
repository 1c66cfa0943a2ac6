//! The symbols of the grammar.

use crate::numeral::Numeral;
use kernel_syntax::{Op, TestOp};
use oz_lexer::LexKind;
use tree_node::Text;

/// A symbol of the grammar: a token as the grammar reads it. The symbols of a text end with `EndOfText`, or with `Bad`
/// where its first lexical fault stands, and neither stands anywhere else.
#[derive(Drop)]
pub enum Symbol {
    /// A name as it is spelled.
    Variable(Text),
    /// The text of an atom, without quotes and escapes.
    Atom(Text),
    /// The value of an integer, and none where the token is no good number.
    Integer(Option<Numeral>),
    Skip,
    Local,
    In,
    End,
    If,
    Then,
    Else,
    Case,
    Of,
    Thread,
    At,
    Try,
    Catch,
    Raise,
    Proc,
    Fun,
    Finally,
    Equals,
    OpenRound,
    CloseRound,
    OpenCurly,
    CloseCurly,
    Dollar,
    Colon,
    Dot,
    Bar,
    /// The sign between clauses.
    Clause,
    Operator(Op),
    Test(TestOp),
    /// A reserved word or a sign that no rule uses.
    Unused,
    EndOfText,
    /// The first lexical fault of the text.
    Bad(LexKind),
}

/// A symbol that stands alone at its place in a rule.
#[derive(Clone, Copy, Debug, PartialEq, Eq)]
pub enum Sign {
    Equals,
    Then,
    Of,
    End,
    OpenCurly,
    Dollar,
    Colon,
    Bar,
    Else,
    CloseRound,
}

/// What ends a sequence of statements.
#[derive(Clone, Copy, Debug, PartialEq, Eq)]
pub enum Closer {
    End,
    Else,
    Catch,
    EndOfText,
}

/// Whether the fields in brackets name values, as a record's, or declare identifiers, as a pattern's.
#[derive(Clone, Copy, Debug, PartialEq, Eq)]
pub enum Purpose {
    Use,
    Declare,
}
