//! Why a text is refused.

use oz_lexer::LexKind;

/// What a refusal says was expected, one for each point of the grammar at which texts differ.
#[derive(Clone, Copy, Debug, PartialEq, Eq)]
pub enum What {
    Statement,
    StatementOrAt,
    StatementOrEnd,
    StatementOrElse,
    StatementOrCatch,
    StatementOrEndOfText,
    Variable,
    VariableOrIn,
    Equals,
    Value,
    VariableOrFeature,
    Then,
    Of,
    Pattern,
    Bar,
    End,
    VariableOrClose,
    Close,
    Integer,
    OpenBrace,
    Dollar,
    FieldOrBracket,
    Colon,
    ValueOrClose,
    Else,
    CloseRound,
    ClauseOrElse,
    StatementOrClause,
    StatementOrHandler,
    StatementOrFinally,
}

/// What is wrong at a token. Where several apply to one token, the first of this list is answered.
#[derive(Clone, Copy, Debug, PartialEq, Eq)]
pub enum FaultKind {
    /// No token begins here, or one that is none.
    Lex(LexKind),
    /// No program goes on with this token.
    Expected(What),
    /// An integer outside -2^127 to 2^127 - 1, or with a first digit 0 before others.
    Number,
    /// The site of a thread is below 1.
    Site,
    /// A statement within 200 others.
    Deep,
    /// A 65th variable of one declaration, argument, formal or field.
    Wide,
    /// A feature, or a variable of a pattern or of formals, that was given before.
    Twice,
    /// An identifier that nothing declares.
    Unbound,
}

/// The first fault of a list of symbols, and how many of them are left from where it stands on.
#[derive(Clone, Copy, Debug, PartialEq, Eq)]
pub struct Fault {
    pub kind: FaultKind,
    pub left: usize,
}

/// The first fault of a text and its place: the line and the column in bytes, both from 1.
#[derive(Clone, Copy, Debug, PartialEq, Eq)]
pub struct TextFault {
    pub kind: FaultKind,
    pub line: u64,
    pub column: u64,
}
