// The numbers of a case, from its words. A negative number is coded as in `words`: -1 is 2^31, or 2^63, and -2 is one more. That is not two's
// complement, so `cast_signed` would read other numbers; and a trait for both widths would only hold the two bodies that stand here.

// The number in two words.
pub fn long(low: u32, high: u32) -> u64 {
    u64::from(low) | u64::from(high) << 32
}

pub fn signed(code: u32) -> i32 {
    if code < 2147483648 {
        code as i32
    } else {
        !((code - 2147483648) as i32)
    }
}

pub fn long_signed(code: u64) -> i64 {
    if code < 9223372036854775808 {
        code as i64
    } else {
        !((code - 9223372036854775808) as i64)
    }
}
