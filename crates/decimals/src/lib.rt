// Decimal digits in a text: whether bytes are digits, and the number that they write, with a ceiling, so that digits of any count are read.
// An inner crate: what its functions require, every caller proves.
#![tactic(auto)]

ghost use Rattle.std.specs.Prelude.{◌≡◌, true, ◌*◌, ◌+◌, ◌-◌, ◌≤◌, min};
ghost use Rattle.page.specs.SheetLine.{is_digit, all_digits, amount};

// Whether the byte is `0` to `9`.
pub fn is_digit(byte: u8) -> bool
    ensures { result ≡ is_digit byte }
{
    byte.is_ascii_digit()
}

// Whether all bytes are digits.
pub fn all_digits(bytes: &[u8]) -> bool
    ensures { result ≡ all_digits bytes.now }
{
    bytes.iter().all(|&byte| is_digit(byte))
}

// The number n with one digit more, but not above the ceiling.
fn with_digit<const CEILING: u64>(n: u64, byte: u8) -> u64
    requires { (48 ≤ byte) × (byte ≤ 57) }
    ensures { result ≡ min (10 * n + (byte - 48)) CEILING }
{
    if CEILING / 10 < n {
        return CEILING;
    }
    (10 * n).saturating_add(u64::from(byte - b'0')).min(CEILING)
}

// The number that the digits write, but not above the ceiling.
pub fn capped_amount<const CEILING: u64>(digits: &[u8]) -> u64
    requires { all_digits digits.now ≡ true }
    ensures { result ≡ min (amount 0 digits.now) CEILING }
{
    let mut n = 0;
    for &byte in digits {
        n = with_digit::<CEILING>(n, byte);
    }
    n
}
