//! Statements.

ghost use Rattle.std.specs.Prelude.{◌≡◌};
ghost use Rattle.kernel_syntax.specs.Scopes.{features_in};

use crate::bodies::Bodies;
use crate::slots::Slots;
use tree_node::{CodeId, Feature, Integer, Seq, Text};

/// The positions of a call's arguments.
pub type Positions = Seq<u32>;

/// The features of a record pattern in ascending order, integers first, then atoms by their bytes.
pub type Features = Seq<Feature>;

/// An operator on two integers: a sum, a difference, a product, a quotient, the rest of a division, or a comparison.
#[derive(Clone, Copy, Debug, PartialEq, Eq)]
pub enum Op {
    Add,
    Sub,
    Mul,
    Div,
    Mod,
    Le,
    Lt,
    Ge,
    Gt,
}

/// A test of two variables: whether they are equal, or whether they are different (entailment: CTM section 2.8.2).
#[derive(Clone, Copy, Debug, PartialEq, Eq)]
pub enum TestOp {
    Equal,
    NotEqual,
}

/// What a selection selects by: the value at a position, or a feature that the text names.
#[derive(Drop)]
pub enum Selector {
    Var(u32),
    Feature(Feature),
}

/// The pattern of a `case`: an integer, an atom, or a record of a label and 1 to 64 features.
#[derive(Drop)]
pub enum Pattern {
    Int(Integer),
    Atom(Text),
    Rec(Text, Features),
}

/// A statement of a program's table (CTM sections 2.3, 2.7, 4.1 and 6.3). A body is the number of its statement, and an
/// identifier is a position: the number of declarations that enclose its own, hidden ones too. `first` is the position
/// of the first identifier that the form declares; the others follow it.
///
/// `local` declares `count` identifiers for its body, a procedure its `count` formals for its body, `case` one for each
/// feature of its pattern, in their order, for its branch `yes`, and `try` one for its handler.
#[derive(Drop)]
pub enum Stmt {
    Seq(Bodies),
    Skip,
    Local {
        first: u32,
        count: u32,
        body: CodeId,
    },
    TellVar {
        left: u32,
        right: u32,
    },
    TellInt {
        left: u32,
        value: Integer,
    },
    TellAtom {
        left: u32,
        text: Text,
    },
    TellRec {
        left: u32,
        label: Text,
        fields: Slots,
    },
    TellProc {
        left: u32,
        first: u32,
        count: u8,
        body: CodeId,
    },
    Calc {
        left: u32,
        op: Op,
        a: u32,
        b: u32,
    },
    Test {
        left: u32,
        op: TestOp,
        a: u32,
        b: u32,
    },
    Select {
        left: u32,
        source: u32,
        by: Selector,
    },
    If {
        subject: u32,
        yes: CodeId,
        no: CodeId,
    },
    Case {
        subject: u32,
        pattern: Pattern,
        first: u32,
        yes: CodeId,
        no: CodeId,
    },
    Call {
        callee: u32,
        args: Positions,
    },
    Browse(u32),
    Wait(u32),
    NewCell {
        content: u32,
        cell: u32,
    },
    Exchange {
        cell: u32,
        old: u32,
        new: u32,
    },
    NewPort {
        stream: u32,
        port: u32,
    },
    Send {
        port: u32,
        value: u32,
    },
    NewCellAt {
        content: u32,
        cell: u32,
        at: u32,
    },
    Thread {
        at: Option<Integer>,
        body: CodeId,
    },
    Try {
        body: CodeId,
        first: u32,
        handler: CodeId,
    },
    Raise(u32),
}

/// The features of a record pattern, none of another pattern. A `case` declares one identifier for each.
pub fn features(pattern: &Pattern) -> &[Feature]
    ensures { result.now ≡ features_in pattern.now }
{
    match pattern {
        Pattern::Rec(_, features) => features.as_slice(),
        _ => &[],
    }
}
