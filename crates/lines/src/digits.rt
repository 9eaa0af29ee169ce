// Numbers as they are written in a field: decimal, no plus, no leading zero, no `-0`, within signed 32 bits.
ghost use Rattle.std.specs.Prelude.{◌≡◌};
ghost use Rattle.page.specs.SheetLine.{is_decimal, is_minus};
ghost use Rattle.lines.specs.Steps.{number_in, single_in, signless_in, minus_in, decimal_in};

use page::Refusal;

// Whether the bytes are `0`, or digits of which the first is not 0.
fn decimal(digits: &[u8]) -> bool
    ensures { result ≡ is_decimal digits.now }
{
    let count = digits.len();
    if count == 0 {
        return false;
    }
    if 1 < count && digits[0] == b'0' {
        return false;
    }
    decimals::all_digits(digits)
}

// The number that the digits write, but not above 2^32, so that digits of any count are read; or that they are badly written.
fn written(digits: &[u8]) -> Result<u64, Refusal>
    ensures { result ≡ decimal_in digits.now }
{
    if !decimal(digits) {
        return Err(Refusal::Written);
    }
    Ok(decimals::capped_amount::<4_294_967_296>(digits))
}

// Whether the field begins with `-`.
fn minus(field: &[u8]) -> bool
    ensures { result ≡ is_minus field.now }
{
    field.first() == Some(&b'-')
}

// The number n, or that it is outside 32 bits.
fn signless(n: u64) -> Result<i32, Refusal>
    ensures { result ≡ signless_in n }
{
    if 2_147_483_647 < n {
        return Err(Refusal::Within);
    }
    Ok(n as i32)
}

// The number -n; or that it is badly written, where n is 0; or outside, where 32 bits do not hold it or no negative number may stand.
fn below_zero(n: u64, negative: bool) -> Result<i32, Refusal>
    ensures { result ≡ minus_in negative n }
{
    if n == 0 {
        return Err(Refusal::Written);
    }
    if !negative {
        return Err(Refusal::Within);
    }
    if 2_147_483_648 < n {
        return Err(Refusal::Within);
    }
    Ok(!((n - 1) as i32))
}

// What a field of one byte holds: a digit is its own number.
fn single(byte: u8) -> Result<i32, Refusal>
    ensures { result ≡ single_in byte }
{
    if !decimals::is_digit(byte) {
        return Err(Refusal::Written);
    }
    Ok(i32::from(byte - b'0'))
}

// What the field holds, where `negative` says whether it may be negative.
pub fn number(field: &[u8], negative: bool) -> Result<i32, Refusal>
    ensures { result ≡ number_in negative field.now }
{
    if field.len() == 1 {
        return single(field[0]);
    }
    if minus(field) {
        return below_zero(written(&field[1..])?, negative);
    }
    signless(written(field)?)
}
