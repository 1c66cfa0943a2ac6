//! Blanks and comments.

ghost use Rattle.std.specs.Prelude.{◌≡◌, ◌<◌, ◌≤◌, length, not, ◌==◌, drop, Some, None, Ok, Err, option_map, MatchResult, IfOk, IfSome};
ghost use Rattle.std.specs.List.{prefix_len};
ghost use Rattle.oz_lexer.specs.declared.token.LexKind.TheVariants.{OpenComment};
ghost use Rattle.oz_lexer.specs.Blanks.{is_in_line, from_newline, IsBehindBlanks};
ghost use Rattle.oz_lexer.specs.Scan.{behind_comment, behind_slash, behind_blank, seen_text, seen_blank};

use crate::spelling::is_blank;
use crate::token::LexKind;

/// The text behind the comment that these bytes go on, where it closes. Comments inside close first.
fn behind_comment(inside: &[u8]) -> Option<&[u8]>
    ensures { seen_text result ≡ behind_comment 0 0 inside.now }
{
    let mut depth: usize = 0;
    let mut last: u8 = 0;
    for (at, byte) in inside.iter().enumerate() {
        if last == b'/' && *byte == b'*' {
            depth += 1;
            last = 0;
        } else if last == b'*' && *byte == b'/' {
            if depth == 0 {
                return Some(inside.split_at(at + 1).1);
            }
            depth -= 1;
            last = 0;
        } else {
            last = *byte;
        }
    }
    None
}

/// The text behind the comment that `/` may begin before these bytes.
fn behind_slash(rest: &[u8]) -> Result<Option<&[u8]>, LexKind>
    ensures { seen_blank result ≡ behind_slash rest.now }
{
    match rest {
        [b'*', inside @ ..] => match behind_comment(inside) {
            Some(behind) => Ok(Some(behind)),
            None => Err(LexKind::OpenComment),
        },
        _ => Ok(None),
    }
}

fn is_in_line(byte: u8) -> bool
    ensures { result ≡ is_in_line byte }
{
    byte != b'\n'
}

fn line_length(text: &[u8]) -> usize
    ensures value { result ≡ prefix_len is_in_line text.now }
    ensures within { result ≤ length text.now }
{
    text.iter().take_while(|byte| is_in_line(**byte)).count()
}

/// The text from its first newline on.
fn from_newline(text: &[u8]) -> &[u8]
    ensures { result.now ≡ from_newline text.now }
{
    text.split_at(line_length(text)).1
}

/// The text behind the blank or comment at the front, where there is one. The space is looked for first. No byte behind `?`, as
/// letters are, begins either.
fn behind_blank(text: &[u8]) -> Result<Option<&[u8]>, LexKind>
    ensures { seen_blank result ≡ behind_blank text.now }
{
    match text {
        [] => Ok(None),
        [first, rest @ ..] => {
            if *first == b' ' {
                Ok(Some(rest))
            } else if *first > b'?' {
                Ok(None)
            } else if is_blank(*first) {
                Ok(Some(rest))
            } else if *first == b'%' {
                Ok(Some(from_newline(rest)))
            } else if *first == b'/' {
                behind_slash(rest)
            } else {
                Ok(None)
            }
        }
    }
}

/// The text behind all blanks and comments at its front, or from the comment on that stays open.
pub fn behind_blanks(text: &[u8]) -> Result<&[u8], &[u8]>
    ensures { MatchResult result (λ rest. IsBehindBlanks text.now rest.now × (behind_blank rest.now ≡ Ok None)) (λ rest. IsBehindBlanks text.now rest.now × (behind_blank rest.now ≡ Err OpenComment)) }
{
    let mut rest = text;
    loop {
        match behind_blank(rest) {
            Ok(None) => return Ok(rest),
            Ok(Some(behind)) => rest = behind,
            Err(_) => return Err(rest),
        }
    }
}
