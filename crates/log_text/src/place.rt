// The place that a line tells, in digits without leading zeros.
ghost use Rattle.std.specs.Prelude.{◌≡◌, ◌≢◌, ◌↔◌, ℕ, ◌+◌, ◌*◌, ◌<◌, ◌^◌, IsTrue, length, slice_index, IfSome, IfNone, SomeIff, decimal};
ghost use Rattle.std.specs.Char.{digit_value};
ghost use Rattle.std.specs.Str.Parse.{AllDigits, digits_value};

/// The number with one digit more behind its own, where the byte is a digit and the number stays
/// below 2^64.
fn with_digit(number: u64, byte: u8) -> Option<u64>
    ensures { SomeIff result
        ((digit_value byte < 10) × (number * 10 + digit_value byte < 2 ^ 64))
        (number * 10 + digit_value byte) }
{
    if !byte.is_ascii_digit() {
        return None;
    }
    number.checked_mul(10)?.checked_add(u64::from(byte - b'0'))
}

/// The number that digits write, leading zeros allowed, where it is below 2^64.
fn value_of(digits: &[u8]) -> Option<u64>
    ensures { SomeIff result
        (AllDigits 10 digits.now × (digits_value 10 digits.now < 2 ^ 64))
        (digits_value 10 digits.now) }
{
    let mut value = 0;
    for byte in digits {
        value = with_digit(value, *byte)?;
    }
    Some(value)
}

/// Whether a zero stands before another byte.
fn has_leading_zero(bytes: &[u8]) -> bool
    ensures { IsTrue result ↔ (slice_index bytes.now 0 ≡ 48) × (1 < length bytes.now) }
{
    bytes.len() > 1 && bytes[0] == b'0'
}

/// The place that the bytes write: one digit or more without leading zeros, and less than 2^64.
pub fn read_place(bytes: &[u8]) -> Option<u64>
    ensures some { IfSome result (λ place. decimal place ≡ bytes.now) }
    ensures none { IfNone result ((place : ℕ) → place < 2 ^ 64 → decimal place ≢ bytes.now) }
{
    if bytes.is_empty() || has_leading_zero(bytes) {
        return None;
    }
    value_of(bytes)
}
