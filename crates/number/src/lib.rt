// Owns the reading of a number of a script (REPLAY.md), byte by byte.
#![tactic(auto)]

ghost use Rattle.std.specs.Prelude.{◌≡◌, ◌≤◌, ◌*◌, IfSome};
ghost use Rattle.number.specs.Number.{
  digit_in,
  digit_of,
  value_in,
  joined_of,
  more_decimal,
  more_hex,
  first_byte,
  after_zero,
  number_of,
  value_of,
};

// A number, as far as it has been read.
#[derive(Clone, Copy)]
pub enum Number {
    // No byte.
    Empty,
    // A single 0, with which 0x begins.
    Zero,
    Decimal(u32),
    // 0x and no digit.
    Prefix,
    Hex(u32),
    // No number of 32 bits.
    Wrong,
}

// The value of a digit, if the byte is one.
#[tactic(auto, unfolding(crate::specs::Number::digit_of))]
fn digit(byte: u8) -> Option<u32>
    ensures value { digit_in result ≡ digit_of byte }
    ensures small { IfSome result (λ d. d ≤ 15) }
{
    match byte {
        b'0'..=b'9' => Some((byte - b'0') as u32),
        b'A'..=b'F' => Some((byte - b'A') as u32 + 10),
        b'a'..=b'f' => Some((byte - b'a') as u32 + 10),
        _ => None,
    }
}

// A number with a digit of the base after it, if the byte is such a digit and 32 bits hold the sum.
#[tactic(auto, unfolding(crate::specs::Number::joined_of))]
fn joined(value: u32, base: u32, byte: u8) -> Option<u32>
    requires { base ≤ 16 }
    ensures { value_in result ≡ joined_of (value * base) base byte }
{
    let digit = digit(byte)?;
    if base <= digit {
        return None;
    }
    value.checked_mul(base)?.checked_add(digit)
}

// A decimal number with one byte more.
#[tactic(auto, unfolding(crate::specs::Number::more_decimal))]
fn decimal(value: u32, byte: u8) -> Number
    ensures { result ≡ more_decimal value byte }
{
    match joined(value, 10, byte) {
        Some(value) => Number::Decimal(value),
        None => Number::Wrong,
    }
}

// A hexadecimal number with one byte more.
#[tactic(auto, unfolding(crate::specs::Number::more_hex))]
fn hex(value: u32, byte: u8) -> Number
    ensures { result ≡ more_hex value byte }
{
    match joined(value, 16, byte) {
        Some(value) => Number::Hex(value),
        None => Number::Wrong,
    }
}

#[tactic(auto, unfolding(crate::specs::Number::first_byte))]
fn first_byte(byte: u8) -> Number
    ensures { result ≡ first_byte byte }
{
    if byte == b'0' {
        return Number::Zero;
    }
    decimal(0, byte)
}

#[tactic(auto, unfolding(crate::specs::Number::after_zero))]
fn after_zero(byte: u8) -> Number
    ensures { result ≡ after_zero byte }
{
    if byte == b'x' {
        return Number::Prefix;
    }
    decimal(0, byte)
}

impl Number {
    // One byte more.
    #[tactic(auto, unfolding(crate::specs::Number::number_of))]
    pub fn take(self, byte: u8) -> Number
        ensures { result ≡ number_of self byte }
    {
        match self {
            Number::Empty => first_byte(byte),
            Number::Zero => after_zero(byte),
            Number::Decimal(value) => decimal(value, byte),
            Number::Prefix => hex(0, byte),
            Number::Hex(value) => hex(value, byte),
            Number::Wrong => Number::Wrong,
        }
    }

    // Its value, where the word ends here, if it is a number.
    #[tactic(auto, unfolding(crate::specs::Number::value_of))]
    pub fn value(self) -> Option<u32>
        ensures { value_in result ≡ value_of self }
    {
        match self {
            Number::Zero => Some(0),
            Number::Decimal(value) | Number::Hex(value) => Some(value),
            Number::Empty | Number::Prefix | Number::Wrong => None,
        }
    }
}
