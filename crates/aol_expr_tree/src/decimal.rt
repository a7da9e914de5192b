ghost use Rattle.std.specs.Prelude.{◌≡◌, ◌==◌, ◌<◌, ◌≤◌, ◌^◌};

use std::marker::Model;

/// Digits so far: how many, and what they say.
#[derive(Drop)]
pub struct Decimal {
    count: u8,
    value: u64,
}

impl Model for Decimal {
    ghost use Rattle.std.specs.Prelude.{◌<◌, ◌≤◌, ◌^◌};
    ghost use Rattle.aol_expr_tree.specs.Digits.{DigitsOf};

    ghost Value = { DigitsOf };

    ghost view = { λ d. record { count = d.count; value = d.value } };

    ghost invariant = { λ d. (d.count ≤ 19) × (d.value < 10 ^ d.count) };
}

/// The most terms of nested sums.
pub const MAX_TERMS: u64 = 1_048_576;

impl Decimal {
    ghost use Rattle.aol_expr_tree.specs.Decimals.{no_digits, with_digit, one_digit, signed, in_64, in_bounds};

    /// No digits yet.
    pub fn none() -> Decimal
        ensures { result ≡ no_digits }
    {
        Decimal { count: 0, value: 0 }
    }

    /// One digit.
    pub fn one(digit: u8) -> Decimal
        requires { (48 ≤ digit) × (digit ≤ 57) }
        ensures { result ≡ one_digit digit }
    {
        Decimal {
            count: 1,
            value: u64::from(digit - b'0'),
        }
    }

    /// Whether there are no digits.
    pub fn is_empty(&self) -> bool
        ensures { result ≡ (self.now.count == 0) }
    {
        self.count == 0
    }

    /// One more digit, where that makes no more than `most`.
    pub fn with_digit(&self, most: u8, digit: u8) -> Option<Decimal>
        requires digit { (48 ≤ digit) × (digit ≤ 57) }
        requires most { most ≤ 19 }
        ensures { result ≡ with_digit most self.now digit }
    {
        if self.count < most {
            Some(Decimal {
                count: self.count + 1,
                value: 10 * self.value + u64::from(digit - b'0'),
            })
        } else {
            None
        }
    }

    /// The number that the digits say, where it is in 64 bits.
    pub fn signed(&self, negative: bool) -> Option<i64>
        ensures { result ≡ in_64 (signed negative self.now) }
    {
        let value = self.value;
        if value < 1 << 63 {
            Some(if negative {
                -(value as i64)
            } else {
                value as i64
            })
        } else if negative && value == 1 << 63 {
            Some(i64::MIN)
        } else {
            None
        }
    }

    /// The bound that the digits say, where a sum inside sums with so many terms can have it.
    pub fn bound(&self, around: u32) -> Option<u32>
        ensures { result ≡ in_bounds around self.now.value }
    {
        let n = self.value;
        if n <= MAX_TERMS && 1 <= n && u64::from(around) * n <= MAX_TERMS {
            Some(n as u32)
        } else {
            None
        }
    }
}
