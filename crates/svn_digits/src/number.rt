//! Numbers in decimal digits.
ghost use Rattle.std.specs.Prelude.{◌≡◌, ◌+◌, ◌-◌, ◌*◌, Some, IfSome};
ghost use Rattle.std.specs.List.{list_all};
ghost use Rattle.svn_digits.specs.Numbers.{is_digit, fitting, decimal_value, number_of};

/// The most digits of a number.
const MAX_DIGITS: usize = 20;

fn are_digits(word: &[u8]) -> bool
    ensures { result ≡ list_all is_digit word.now }
{
    word.iter().all(|byte| byte.is_ascii_digit())
}

// The number that has one more digit, if it is at most 18446744073709551615.
fn with_digit(value: u64, byte: u8) -> Option<u64>
    ensures value { result ≡ fitting (value * 10 + (byte - 48)) }
    ensures fits { IfSome result (λ n. fitting n ≡ Some n) }
{
    match value.checked_mul(10) {
        Some(tens) => tens.checked_add(u64::from(byte.saturating_sub(b'0'))),
        None => None,
    }
}

// The number with these decimal digits, if it is at most 18446744073709551615.
fn decimal(digits: &[u8]) -> Option<u64>
    ensures { result ≡ fitting (decimal_value digits.now) }
{
    let mut value = 0u64;
    let mut rest = digits;
    'digits: while let Some((byte, after)) = rest.split_first() {
        match with_digit(value, *byte) {
            Some(more) => value = more,
            None => return None,
        }
        rest = after;
    }
    Some(value)
}

/// Reads a number: 1 to 20 decimal digits, at most 18446744073709551615.
pub fn read_number(word: &[u8]) -> Option<u64>
    ensures { result ≡ number_of word.now }
{
    if !word.is_empty() && word.len() <= MAX_DIGITS && are_digits(word) {
        decimal(word)
    } else {
        None
    }
}
