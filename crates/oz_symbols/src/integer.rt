//! Integers as they are spelled.

ghost use Rattle.std.specs.Prelude.{◌≡◌, ◌≤◌, nat_le, if◌then◌else◌, Some, None};
ghost use Rattle.oz_lexer.specs.Spelling.{digits_of};
ghost use Rattle.oz_grammar.specs.Symbols.{number_of, is_plain, negation, signed_integer, integer_of};

use oz_grammar::Numeral;

/// The number that digits name, at most 2^127.
#[tactic(auto, using(crate::proofs::Numbers::too_large))]
fn magnitude(digits: &[u8]) -> Option<u128>
    ensures { result ≡ (if nat_le (number_of digits.now) 170141183460469231731687303715884105728 then Some (number_of digits.now) else None) }
{
    let mut value: u128 = 0;
    for digit in digits {
        if value > 17014118346046923173168730371588410572 {
            return None;
        }
        value = value * 10 + u128::from(digit.saturating_sub(b'0'));
    }
    if value <= 170141183460469231731687303715884105728 {
        Some(value)
    } else {
        None
    }
}

fn is_plain(digits: &[u8]) -> bool
    ensures { result ≡ is_plain digits.now }
{
    match digits {
        [b'0', _, ..] => false,
        _ => true,
    }
}

fn negation(value: u128) -> i128
    requires { value ≤ 170141183460469231731687303715884105728 }
    ensures { result ≡ negation value }
{
    if value == 0 {
        0
    } else {
        -1 - ((value - 1) as i128)
    }
}

fn signed_integer(is_negative: bool, digits: &[u8]) -> Option<Numeral>
    ensures { result ≡ signed_integer is_negative (number_of digits.now) }
{
    let value = magnitude(digits)?;
    if is_negative {
        Some(Numeral::new(negation(value)))
    } else if value < 170141183460469231731687303715884105728 {
        Some(Numeral::new(value as i128))
    } else {
        None
    }
}

/// The integer that is spelled so.
#[tactic(auto, unfolding(oz_grammar::specs::Symbols::integer_of))]
pub fn integer_of(text: &[u8]) -> Option<Numeral>
    ensures { result ≡ integer_of text.now }
{
    let digits = digits_of(text);
    if is_plain(digits) {
        signed_integer(digits.len() < text.len(), digits)
    } else {
        None
    }
}

/// An integer's digits, without the sign before them.
fn digits_of(text: &[u8]) -> &[u8]
    ensures { result.now ≡ digits_of text.now }
{
    match text {
        [b'~', digits @ ..] => digits,
        _ => text,
    }
}
