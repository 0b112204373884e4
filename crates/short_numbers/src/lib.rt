//! Numbers of one to nine digits, leading zeros allowed: read in the same way wherever a text has
//! one.
#![tactic(auto)]

ghost use Rattle.std.specs.Prelude.{◌≡◌, ◌↔◌, ℕ, List, Some, IfSome, IfNone};
ghost use Rattle.short_numbers.specs.Numbers.{IsNumber, number};

/// The most digits of a number.
const MOST_DIGITS: usize = 9;

/// The number, 0 to 999,999,999, that one to nine digits write. None where there are none or more
/// than nine bytes, or one of them is no digit: no sign and no space is read. Takes no memory.
pub fn read_number(digits: &[u8]) -> Option<u32>
    ensures some { IfSome result (IsNumber digits.now) }
    ensures none { IfNone result ((n : ℕ) → ¬ (IsNumber digits.now n)) }
    ensures value { result ≡ number digits.now }
{
    if digits.is_empty() || digits.len() > MOST_DIGITS {
        return None;
    }
    let mut value = 0;
    for digit in digits {
        if !digit.is_ascii_digit() {
            return None;
        }
        value = value * 10 + u32::from(*digit - b'0');
    }
    Some(value)
}

/// The function of the definitions answers a number exactly where the bytes write it.
pub fn number_law()
    ensures { (digits : List ℕ) (n : ℕ) → IsNumber digits n ↔ (number digits ≡ Some n) }
{}
