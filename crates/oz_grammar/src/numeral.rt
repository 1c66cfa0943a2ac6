//! The value of a numeral, as a symbol holds it.

ghost use Rattle.std.specs.Prelude.{◌≡◌};

use std::marker::Model;

/// Half of the words of a numeral.
#[derive(Drop)]
struct Half {
    high: u32,
    low: u32,
}

impl Model for Half {
    ghost use Rattle.std.specs.Prelude.{ℕ, ◌+◌, ◌*◌, ◌^◌};

    ghost Value = { ℕ };

    ghost view = { λ h. h.high * 2 ^ 32 + h.low };

    ghost use Rattle.std.specs.Prelude.{◌<◌};

    ghost invariant = { λ h. (h.high < 2 ^ 32) × (h.low < 2 ^ 32) };
}

impl Half {
    fn new(value: u64) -> Half
        ensures { result ≡ value }
    {
        Half {
            high: (value / (1 << 32)) as u32,
            low: (value % (1 << 32)) as u32,
        }
    }

    fn get(&self) -> u64
        ensures { result ≡ self.now }
    {
        u64::from(self.high) * (1 << 32) + u64::from(self.low)
    }
}

/// The integer that a numeral names, from -2^127 to 2^127 - 1. Contracts see it as that integer. It lies in words of 32 bits, so
/// that a symbol has 24 bytes: with the tag of an `Option` beside it, one of wider words would take 32.
#[derive(Drop)]
pub struct Numeral {
    high: Half,
    low: Half,
}

impl Model for Numeral {
    ghost use Rattle.std.specs.Prelude.{ℤ, ◌+◌, ◌*◌, ◌^◌};
    ghost use Rattle.std.specs.Int.{w128, cast_signed};

    ghost Value = { ℤ };

    ghost view = { λ w. cast_signed w128 (w.high * 2 ^ 64 + w.low) };

    ghost use Rattle.std.specs.Prelude.{◌<◌};

    ghost invariant = { λ w. (w.high < 2 ^ 64) × (w.low < 2 ^ 64) };
}

impl Numeral {
    /// The integer as a symbol holds it. Any `i128` is one.
    pub fn new(value: i128) -> Numeral
        ensures { result ≡ value }
    {
        let bits = value.cast_unsigned();
        Numeral {
            high: Half::new((bits / (1 << 64)) as u64),
            low: Half::new((bits % (1 << 64)) as u64),
        }
    }

    /// The integer as a number to compute with.
    pub fn get(&self) -> i128
        ensures { result ≡ self.now }
    {
        let bits = u128::from(self.high.get()) * (1 << 64) + u128::from(self.low.get());
        bits.cast_signed()
    }
}
