//! Integers of 128 bits.

ghost use Rattle.std.specs.Prelude.{◌≡◌, ◌↔◌, IsTrue};

use std::marker::Model;

/// An integer of 128 bits with a sign, as nodes and features hold it: from -2^127 to 2^127 - 1. Contracts see it as that
/// integer. It lies in two words of 64 bits, since an `i128` is aligned to 16 bytes, by which each node and each field
/// would grow; `new` and `get` pass between the two.
#[derive(Drop)]
pub struct Integer {
    high: u64,
    low: u64,
}

impl Model for Integer {
    ghost use Rattle.std.specs.Prelude.{ℤ, ◌+◌, ◌*◌, ◌^◌};
    ghost use Rattle.std.specs.Int.{w128, cast_signed};

    ghost Value = { ℤ };

    ghost view = { λ w. cast_signed w128 (w.high * 2 ^ 64 + w.low) };

    ghost use Rattle.std.specs.Prelude.{◌<◌};

    ghost invariant = { λ w. (w.high < 2 ^ 64) × (w.low < 2 ^ 64) };
}

impl Integer {
    /// The integer as a node or a feature holds it. Any `i128` is one.
    pub fn new(value: i128) -> Integer
        ensures { result ≡ value }
    {
        let bits = value.cast_unsigned();
        Integer {
            high: (bits / (1 << 64)) as u64,
            low: (bits % (1 << 64)) as u64,
        }
    }

    /// The integer as a number to compute with.
    pub fn get(&self) -> i128
        ensures { result ≡ self.now }
    {
        let bits = u128::from(self.high) * (1 << 64) + u128::from(self.low);
        bits.cast_signed()
    }

    /// The same integer once more. It takes no memory.
    pub fn copy(&self) -> Integer
        ensures { result ≡ self.now }
    {
        Integer {
            high: self.high,
            low: self.low,
        }
    }

    /// Whether the two integers are the same.
    pub fn equals(&self, other: &Integer) -> bool
        ensures { IsTrue result ↔ (self.now ≡ other.now) }
    {
        self.high == other.high && self.low == other.low
    }
}
