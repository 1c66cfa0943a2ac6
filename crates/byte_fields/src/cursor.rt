//! Where a reader stands in its bytes, and what it reads there.

ghost use Rattle.std.specs.Prelude.{◌≡◌, ◌+◌, ◌<◌, ◌≤◌, ◌^◌, ◌∷◌, [], length, take, drop, false, IsTrue, nat_le, if◌then◌else◌, Some, None, Ok, Err, MatchOption, MatchResult, IfOk};
ghost use Rattle.std.specs.List.{prefix_len};
ghost use Rattle.byte_fields.specs.Text.{is_in_line, value_of};
ghost use Rattle.byte_fields.specs.declared.fault.FileFault.TheVariants.{Bad};
ghost use Rattle.byte_fields.specs.Reading.{bytes_at};
ghost use Rattle.byte_fields.specs.TextReading.{IsReadAs, begins_with, digit_count, line_at, number_at, word_at};

use crate::fault::FileFault;
use std::marker::Model;

/// A place in bytes, counted from 0, and the bytes from it to the end, which contracts see as a pair. What is read is
/// left behind. After a fault the place is none that anything is known of.
#[derive(Drop)]
pub struct Cursor<'a> {
    at: usize,
    left: &'a [u8],
}

impl<'a> Model for Cursor<'a> {
    ghost use Rattle.std.specs.Prelude.{ℕ, List, length, ◌+◌, ◌<◌, ◌^◌};

    ghost Value = { ℕ × List ℕ };

    ghost view = { λ c. (c.at, c.left.now) };

    ghost invariant = { λ c. c.at + length c.left.now < 2 ^ 64 };
}

#[tactic(auto, using(crate::proofs::LoopLaws::value_step, crate::proofs::LoopLaws::too_large))]
// The number that digits name, where it is not above the most.
fn number_of(digits: &[u8], most: u64) -> Option<u64>
    ensures { result ≡ (if nat_le (value_of digits.now) most then Some (value_of digits.now) else None) }
{
    let mut value: u64 = 0;
    for digit in digits {
        let digit = u64::from(digit.saturating_sub(b'0'));
        if value > most / 10 || digit > most - value * 10 {
            return None;
        }
        value = value * 10 + digit;
    }
    Some(value)
}

// How many bytes stand before the first newline.
fn count_in_line(bytes: &[u8]) -> usize
    ensures value { result ≡ prefix_len is_in_line bytes.now }
    ensures within { result ≤ length bytes.now }
{
    bytes.iter().take_while(|byte| **byte != b'\n').count()
}

// How many digits stand at the front.
fn count_digits(bytes: &[u8]) -> usize
    ensures value { result ≡ digit_count bytes.now }
    ensures within { result ≤ length bytes.now }
{
    bytes
        .iter()
        .take_while(|byte| byte.is_ascii_digit())
        .count()
}

impl<'a> Cursor<'a> {
    /// The first place.
    pub fn new(bytes: &'a [u8]) -> Cursor<'a>
        ensures { result ≡ (0, bytes.entry.now) }
    {
        Cursor { at: 0, left: bytes }
    }

    /// The place.
    pub fn place(&self) -> usize
        ensures { result ≡ self.now.0 }
    {
        self.at
    }

    /// How many bytes are left.
    pub fn len(&self) -> usize
        ensures { result ≡ length self.now.1 }
    {
        self.left.len()
    }

    /// The place behind all of them.
    pub fn end(&self) -> usize
        ensures { result ≡ self.now.0 + length self.now.1 }
    {
        self.at + self.left.len()
    }

    /// Whether the bytes begin with this one.
    pub fn begins_with(&self, byte: u8) -> bool
        ensures { result ≡ begins_with byte self.now.1 }
    {
        match self.left {
            [] => false,
            [first, ..] => *first == byte,
        }
    }

    /// Whether the bytes begin with this one, which then is left behind.
    pub fn takes(&mut self, byte: u8) -> bool
        ensures value { result ≡ begins_with byte self.old.1 }
        ensures taken { IsTrue result → self.new ≡ (self.old.0 + 1, drop 1 self.old.1) }
        ensures same { result ≡ false → self.new ≡ self.old }
    {
        match self.left {
            [first, rest @ ..] if *first == byte => {
                self.at += 1;
                self.left = rest;
                true
            }
            _ => false,
        }
    }

    /// The next byte, if one is left.
    pub fn next_byte(&mut self) -> Option<u8>
        ensures { MatchOption result ((self.old.1 ≡ []) × (self.new ≡ self.old)) (λ byte. (self.old.1 ≡ byte ∷ self.new.1) × (self.new.0 ≡ self.old.0 + 1)) }
    {
        match self.left {
            [] => None,
            [byte, rest @ ..] => {
                self.at += 1;
                self.left = rest;
                Some(*byte)
            }
        }
    }

    /// The next bytes, if so many are left.
    pub fn next_bytes(&mut self, count: usize) -> Option<&'a [u8]>
        ensures { MatchOption result ((length self.old.1 < count) × (self.new ≡ self.old)) (λ s. (count ≤ length self.old.1) × (s.now ≡ take count self.old.1) × (self.new ≡ (self.old.0 + count, drop count self.old.1))) }
    {
        if self.left.len() < count {
            return None;
        }
        let (front, rest) = self.left.split_at(count);
        self.at += count;
        self.left = rest;
        Some(front)
    }

    /// The next bytes, of which so many have to be left.
    #[tactic(auto, unfolding(crate::specs::Reading::bytes_at))]
    pub fn bytes(&mut self, count: usize) -> Result<&'a [u8], FileFault>
        ensures { MatchResult result (λ s. bytes_at Bad count self.old ≡ Ok (s.now, self.new)) (λ f. bytes_at Bad count self.old ≡ Err f) }
    {
        let end = self.end();
        self.next_bytes(count).ok_or(FileFault::Bad(end))
    }

    /// The bytes up to a newline, which is left behind too.
    #[tactic(auto, unfolding(crate::specs::TextReading::line_at))]
    pub fn line(&mut self) -> Result<&'a [u8], FileFault>
        ensures { MatchResult result (λ s. line_at self.old ≡ Ok (s.now, self.new)) (λ f. line_at self.old ≡ Err f) }
    {
        let (front, behind) = self.left.split_at(count_in_line(self.left));
        match behind {
            [] => Err(FileFault::Bad(self.at + front.len())),
            [_, rest @ ..] => {
                self.at += front.len() + 1;
                self.left = rest;
                Ok(front)
            }
        }
    }

    // One byte of a word.
    #[tactic(auto, unfolding(crate::specs::TextReading::word_at))]
    fn expect(&mut self, wanted: u8) -> Result<(), FileFault>
        ensures { IsReadAs (word_at (wanted ∷ [])) self.old self.new result }
    {
        match self.left {
            [byte, rest @ ..] if *byte == wanted => {
                self.at += 1;
                self.left = rest;
                Ok(())
            }
            _ => Err(FileFault::Bad(self.at)),
        }
    }

    /// A word.
    #[tactic(auto, using(crate::proofs::LoopLaws::word_step, crate::proofs::LoopLaws::word_stop, crate::proofs::LoopLaws::word_done))]
    pub fn word(&mut self, word: &[u8]) -> Result<(), FileFault>
        ensures { IsReadAs (word_at word.now) self.old self.new result }
    {
        for wanted in word {
            self.expect(*wanted)?;
        }
        Ok(())
    }

    /// A number in decimal, from the least to the most.
    #[tactic(auto, unfolding(crate::specs::TextReading::number_at))]
    pub fn number(&mut self, least: u64, most: u64) -> Result<u64, FileFault>
        ensures read { IsReadAs (number_at least most) self.old self.new result }
        ensures within { IfOk result (λ n. n ≤ most) }
    {
        let (digits, rest) = self.left.split_at(count_digits(self.left));
        if let [b'0', _, ..] = digits {
            return Err(FileFault::Bad(if least == 0 { self.at + 1 } else { self.at }));
        }
        match (digits, number_of(digits, most)) {
            ([_, ..], Some(number)) if number >= least => {
                self.at += digits.len();
                self.left = rest;
                Ok(number)
            }
            _ => Err(FileFault::Bad(self.at)),
        }
    }
}
