// Bytes, numbers and fields.
ghost use Rattle.std.specs.Prelude.{[], ◌∷◌, ◌++◌, ◌+◌, ◌≤◌, ◌<◌, length};
ghost use Rattle.page.specs.ListingText.{decimal};
ghost use Rattle.writing.specs.Steps.{Put};

// One byte.
pub fn put_byte(place: &mut [u8], at: usize, byte: u8) -> usize
    requires { at < length place.old }
    ensures { Put at (byte ∷ []) place.old place.new result }
{
    place[at] = byte;
    at + 1
}

// A number in decimal: the digits of its tenth, and the last one.
pub fn put_number(place: &mut [u8], at: usize, n: u32) -> usize
    requires { at + length (decimal n) ≤ length place.old }
    ensures { Put at (decimal n) place.old place.new result }
{
    if n < 10 {
        return put_byte(place, at, b'0' + n as u8);
    }
    let next = put_number(place, at, n / 10);
    put_byte(place, next, b'0' + (n % 10) as u8)
}

// A number and the byte that ends it.
pub fn put_field(place: &mut [u8], at: usize, n: u32, end: u8) -> usize
    requires { at + length (decimal n) + 1 ≤ length place.old }
    ensures { Put at (decimal n ++ (end ∷ [])) place.old place.new result }
{
    let next = put_number(place, at, n);
    put_byte(place, next, end)
}
