//! Refusals.

ghost use Rattle.std.specs.Prelude.{◌≡◌, ◌++◌, IfOk};
ghost use Rattle.oz_show.specs.Refusal.{fault_line, fault_text, lex_text, what_text};

use oz_grammar::{FaultKind, TextFault, What};
use oz_lexer::LexKind;
use std::alloc::{AllocError, Global};
use tree_node::Line;

// What is wrong with a token that is none.
fn lex_text(kind: LexKind) -> &'static str
    ensures { result.now ≡ lex_text kind }
{
    match kind {
        LexKind::BadChar => "bad character",
        LexKind::OpenQuote => "open quote",
        LexKind::BadEscape => "bad escape",
        LexKind::OpenComment => "open comment",
        LexKind::LongName => "name too long",
    }
}

// What was expected.
fn what_text(what: What) -> &'static str
    ensures { result.now ≡ what_text what }
{
    match what {
        What::Statement => "a statement",
        What::StatementOrAt => "a statement or at",
        What::StatementOrEnd => "a statement or end",
        What::StatementOrElse => "a statement or else",
        What::StatementOrCatch => "a statement or catch",
        What::StatementOrEndOfText => "a statement or the end of the text",
        What::Variable => "a variable",
        What::VariableOrIn => "a variable or in",
        What::Equals => "=",
        What::Value => "a value",
        What::VariableOrFeature => "a variable or a feature",
        What::Then => "then",
        What::Of => "of",
        What::Pattern => "a pattern",
        What::Bar => "|",
        What::End => "end",
        What::VariableOrClose => "a variable or }",
        What::Close => "}",
        What::Integer => "an integer",
        What::OpenBrace => "{",
        What::Dollar => "$",
        What::FieldOrBracket => "a field or )",
        What::Colon => ":",
        What::ValueOrClose => "a value or }",
        What::Else => "else",
        What::CloseRound => ")",
        What::ClauseOrElse => "[] or else",
        What::StatementOrClause => "a statement, [] or else",
        What::StatementOrHandler => "a statement, catch or finally",
        What::StatementOrFinally => "a statement, finally or end",
    }
}

// What is wrong at a token, in two parts.
fn fault_parts(kind: FaultKind) -> (&'static str, &'static str)
    ensures { result.0.now ++ result.1.now ≡ fault_text kind }
{
    match kind {
        FaultKind::Lex(lex) => ("", lex_text(lex)),
        FaultKind::Expected(what) => ("expected ", what_text(what)),
        FaultKind::Number => ("", "bad number"),
        FaultKind::Site => ("", "site below 1"),
        FaultKind::Deep => ("", "nested too deep"),
        FaultKind::Wide => ("", "too many items"),
        FaultKind::Twice => ("", "given twice"),
        FaultKind::Unbound => ("", "undeclared"),
    }
}

/// The line that refuses a text: `refused`, the place as `line:column`, and what is wrong there.
pub fn fault_line(alloc: Global, fault: &TextFault) -> Result<Line, AllocError>
    ensures { IfOk result (λ l. l ≡ fault_line fault.now) }
{
    let (front, back) = fault_parts(fault.kind);
    let text = format!(in alloc; "refused {}:{} {front}{back}", fault.line, fault.column)?;
    Ok(Line::from_vec(text.into_bytes())?)
}
