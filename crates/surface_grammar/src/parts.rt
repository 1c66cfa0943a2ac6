//! What parts of a program stand for.

/// What a call stands for: a value, whose last argument is told, or a statement.
#[derive(Clone, Copy, Debug, PartialEq, Eq)]
pub enum CallUse {
    AsValue,
    AsStatement,
}

/// What formals belong to: a procedure, whose body is statements, or a function, whose body is a value.
#[derive(Clone, Copy, Debug, PartialEq, Eq)]
pub enum Callable {
    OfProc,
    OfFun,
}

/// What closes a sequence of statements.
#[derive(Clone, Copy, Debug, PartialEq, Eq)]
pub enum Closer {
    /// `end`.
    End,
    /// `else`.
    Else,
    /// `[]` or `else`, behind a clause.
    OfClause,
    /// `catch` or `finally`, in a `try`.
    OfTry,
    /// `finally` or `end`, behind a handler.
    OfHandler,
    /// The end of the text.
    EndOfText,
}
