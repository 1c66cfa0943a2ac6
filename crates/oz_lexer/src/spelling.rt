//! Bytes of tokens, and how far a token without quotes reaches.

ghost use Rattle.std.specs.Prelude.{◌≡◌, ◌+◌, ◌≤◌, ◌∷◌, true, length};
ghost use Rattle.std.specs.Char.{is_ascii_digit};
ghost use Rattle.std.specs.List.{prefix_len};
ghost use Rattle.tree_node.specs.Spelling.{is_word_byte};
ghost use Rattle.tree_node.specs.Words.{is_reserved};
ghost use Rattle.oz_lexer.specs.Spelling.{is_control, is_escape, is_name};
ghost use Rattle.oz_lexer.specs.Blanks.{is_blank};
ghost use Rattle.oz_lexer.specs.Scan.{is_one_byte_sign, is_two_byte_sign, sign_length, minus_length, token_length, token_kind};

use crate::token::TokenKind;
use tree_node::is_reserved_word;

/// Whether a byte may stand between tokens.
pub fn is_blank(byte: u8) -> bool
    ensures { result ≡ is_blank byte }
{
    matches!(byte, 9..=13 | b' ' | b'?')
}

/// Whether a byte is a control character.
pub fn is_control(byte: u8) -> bool
    ensures { result ≡ is_control byte }
{
    byte <= 31 || byte == 127
}

/// Whether a byte may stand behind `\` in a quoted atom.
pub fn is_escape(byte: u8) -> bool
    ensures { result ≡ is_escape byte }
{
    byte == b'\'' || byte == b'\\' || byte == b'n'
}

/// Whether tokens of a kind have at most 255 bytes.
pub fn is_name(kind: TokenKind) -> bool
    ensures { result ≡ is_name kind }
{
    match kind {
        TokenKind::Variable | TokenKind::Atom | TokenKind::Quoted => true,
        _ => false,
    }
}

fn is_word_byte(byte: u8) -> bool
    ensures { result ≡ is_word_byte byte }
{
    byte.is_ascii_alphanumeric() || byte == b'_'
}

fn name_length(rest: &[u8]) -> usize
    ensures value { result ≡ prefix_len is_word_byte rest.now }
    ensures within { result ≤ length rest.now }
{
    rest.iter().take_while(|byte| is_word_byte(**byte)).count()
}

fn digit_length(rest: &[u8]) -> usize
    ensures value { result ≡ prefix_len is_ascii_digit rest.now }
    ensures within { result ≤ length rest.now }
{
    rest.iter().take_while(|byte| byte.is_ascii_digit()).count()
}

/// How many bytes the integer that `~` begins has.
fn minus_length(rest: &[u8]) -> usize
    ensures value { result ≡ minus_length (prefix_len is_ascii_digit rest.now) }
    ensures within { result ≤ length rest.now + 1 }
{
    let digits = digit_length(rest);
    if digits == 0 { 0 } else { digits + 1 }
}

fn is_one_byte_sign(first: u8) -> bool
    ensures { result ≡ is_one_byte_sign first }
{
    matches!(
        first,
        b'=' | b'('
            | b')'
            | b'{'
            | b'}'
            | b'$'
            | b':'
            | b'.'
            | b'|'
            | b'+'
            | b'-'
            | b'*'
            | b'<'
            | b'>'
    )
}

fn is_two_byte_sign(first: u8, second: u8) -> bool
    ensures { result ≡ is_two_byte_sign first second }
{
    matches!(
        (first, second),
        (b'=', b'<') | (b'>', b'=') | (b'=', b'=') | (b'\\', b'=') | (b'[', b']')
    )
}

/// How many bytes the longest sign has that a byte begins, by what follows.
fn sign_length(first: u8, rest: &[u8]) -> usize
    ensures value { result ≡ sign_length first rest.now }
    ensures within { result ≤ length rest.now + 1 }
{
    if !rest.is_empty() && is_two_byte_sign(first, rest[0]) {
        2
    } else if is_one_byte_sign(first) {
        1
    } else {
        0
    }
}

/// How many bytes the longest token without quotes has that a byte begins, by what follows; 0 where it begins none.
pub fn token_length(first: u8, rest: &[u8]) -> usize
    ensures value { result ≡ token_length first rest.now }
    ensures within { result ≤ length rest.now + 1 }
{
    if first.is_ascii_uppercase() || first.is_ascii_lowercase() {
        name_length(rest) + 1
    } else if first.is_ascii_digit() {
        digit_length(rest) + 1
    } else if first == b'~' {
        minus_length(rest)
    } else {
        sign_length(first, rest)
    }
}

/// Whether these bytes are `then`, `else` or `local`.
#[tactic(auto, using(crate::proofs::FrequentWords::then_is, crate::proofs::FrequentWords::else_is, crate::proofs::FrequentWords::local_is))]
fn is_longer_word(bytes: &[u8]) -> bool
    ensures { result ≡ true → is_reserved bytes.now ≡ true }
{
    if bytes.len() == 4
        && bytes[0] == b't'
        && bytes[1] == b'h'
        && bytes[2] == b'e'
        && bytes[3] == b'n'
    {
        return true;
    }
    if bytes.len() == 4
        && bytes[0] == b'e'
        && bytes[1] == b'l'
        && bytes[2] == b's'
        && bytes[3] == b'e'
    {
        return true;
    }
    if bytes.len() == 5
        && bytes[0] == b'l'
        && bytes[1] == b'o'
        && bytes[2] == b'c'
        && bytes[3] == b'a'
        && bytes[4] == b'l'
    {
        return true;
    }
    false
}

/// Whether these bytes are a word of declarations or of `if`.
#[tactic(auto, unfolding(tree_node::specs::Words::reserved_words))]
fn is_frequent_word(bytes: &[u8]) -> bool
    ensures { result ≡ true → is_reserved bytes.now ≡ true }
{
    match bytes {
        [b'i', b'n'] | [b'i', b'f'] => true,
        [b'e', b'n', b'd'] | [b'f', b'u', b'n'] => true,
        _ => is_longer_word(bytes),
    }
}

/// Whether these bytes are one of the reserved words. Those of declarations and of `if` are most of all words: so they are told
/// apart at once.
fn is_reserved(bytes: &[u8]) -> bool
    ensures { result ≡ is_reserved bytes.now }
{
    is_frequent_word(bytes) || is_reserved_word(bytes)
}

/// What kind of token a byte begins, of which these are all bytes.
pub fn token_kind(first: u8, bytes: &[u8]) -> TokenKind
    ensures { result ≡ token_kind first bytes.now }
{
    if first.is_ascii_uppercase() {
        TokenKind::Variable
    } else if first.is_ascii_lowercase() {
        if is_reserved(bytes) {
            TokenKind::Word
        } else {
            TokenKind::Atom
        }
    } else if first.is_ascii_digit() || first == b'~' {
        TokenKind::Integer
    } else {
        TokenKind::Sign
    }
}
