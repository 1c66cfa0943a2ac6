//! Laws of the definitions, each the contract of a call that does nothing.

ghost use Rattle.oz_lexer.specs.Laws.{TextsDivide, TextsDivideOnce};

/// Every text has tokens, the longest one each time, up to its end or its first lexical fault, and no others.
pub fn texts_divide()
    ensures some { TextsDivide }
    ensures once { TextsDivideOnce }
{}
