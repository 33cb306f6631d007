//! Numbers in texts.
ghost use Rattle.std.specs.Prelude.{◌≡◌, ◌≤◌, length};
ghost use Rattle.wl_text.specs.Number.{number_of, digits_number};

/// The value of 1 to 10 decimal digits. `None` if there are more or fewer, if a byte is no digit,
/// or if the value is above 4,294,967,295.
pub fn decimal_number(digits: &[u8]) -> Option<u32>
    ensures { result ≡ number_of digits.now }
{
    if digits.is_empty() || digits.len() > 10 {
        return None;
    }
    let value = decimal_value(digits)?;
    if value > 4_294_967_295 {
        return None;
    }
    Some(value as u32)
}

// The value of decimal digits.
fn decimal_value(digits: &[u8]) -> Option<u64>
    requires { length digits.now ≤ 10 }
    ensures { result ≡ digits_number digits.now }
{
    let mut value = 0;
    for digit in digits {
        if !digit.is_ascii_digit() {
            return None;
        }
        value = value * 10 + u64::from(*digit - b'0');
    }
    Some(value)
}
