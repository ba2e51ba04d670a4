// Numbers as the console reads them.
ghost use Rattle.std.specs.Prelude.{◌≡◌, ◌≤◌};
ghost use Rattle.rolgevin.specs.Numbers.{digit_behind, number_in, hex_digits};

// A number with one more digit behind it.
fn behind(value: u32, base: u32, byte: u8) -> Option<u32>
    requires { base ≤ 16 }
    ensures { result ≡ digit_behind base value byte }
{
    let digit = char::from(byte).to_digit(16).filter(|digit| *digit < base)?;
    value.checked_mul(base)?.checked_add(digit)
}

// The number that some digits write, if they are digits of the base and it is below 2^32.
// `u32::from_str_radix` would also take a number with `+` in front.
fn number(bytes: &[u8], base: u32) -> Option<u32>
    requires { base ≤ 16 }
    ensures { result ≡ number_in base bytes.now }
{
    if bytes.is_empty() {
        return None;
    }
    let mut value = 0;
    for byte in bytes {
        value = behind(value, base, *byte)?;
    }
    Some(value)
}

/// A word or a mask: hexadecimal digits, with or without 0x in front, below 2^32.
pub(crate) fn hex(token: &[u8]) -> Option<u32>
    ensures { result ≡ number_in 16 (hex_digits token.now) }
{
    number(token.strip_prefix(b"0x").unwrap_or(token), 16)
}

/// A site, a length, a place or another count: decimal digits, below 2^32.
pub(crate) fn decimal(token: &[u8]) -> Option<u32>
    ensures { result ≡ number_in 10 token.now }
{
    number(token, 10)
}
