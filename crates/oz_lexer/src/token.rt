//! Tokens and lexical faults.

/// What a token is. A word is a reserved word, and an atom without quotes is none.
#[derive(Clone, Copy, Debug, PartialEq, Eq)]
pub enum TokenKind {
    Variable,
    Atom,
    /// An atom in single quotes.
    Quoted,
    Integer,
    Word,
    Sign,
    /// The end of the text.
    End,
}

/// A token: its span in the text, in bytes, and the slice of the text at that span, which is empty at the end.
#[derive(Clone, Copy, Debug)]
pub struct Token<'a> {
    pub kind: TokenKind,
    pub start: usize,
    pub end: usize,
    pub text: &'a str,
}

/// What is wrong where the tokens stop.
#[derive(Clone, Copy, Debug, PartialEq, Eq)]
pub enum LexKind {
    /// No token, blank or comment begins here, or a control character stands in a quoted atom.
    BadChar,
    /// The text ends in a quoted atom, which begins here.
    OpenQuote,
    /// A `\` in a quoted atom stands before anything but `'`, `\` and `n`.
    BadEscape,
    /// The text ends in a comment, the outermost of which begins here.
    OpenComment,
    /// A variable or an atom has more than 255 bytes, its quotes included.
    LongName,
}

/// A lexical fault and its place: the line and the column in bytes, both from 1.
#[derive(Clone, Copy, Debug, PartialEq, Eq)]
pub struct LexFault {
    pub kind: LexKind,
    pub line: u64,
    pub column: u64,
}
