// What `read` answers, in words of eight bytes, the lowest byte first: number, line, field, d, X, Y, s, k, mode, the 45 coefficients; and a last word
// that is given. X, Y and the coefficients are signed codes. Number, line and field are 0 of a sheet, and the others of a refusal.
use reading::{Refused, Sheet};
use words::code;

fn signed(number: i32) -> u64 {
    code(i64::from(number))
}

fn fault_words(refused: Refused) -> [u64; 3] {
    [
        u64::from(numbering::number(refused.refusal)),
        u64::from(refused.line),
        u64::from(refused.field),
    ]
}

fn head_words(sheet: Sheet) -> [u64; 6] {
    [
        u64::from(sheet.d),
        signed(sheet.x),
        signed(sheet.y),
        u64::from(sheet.s),
        u64::from(sheet.k),
        u64::from(sheet.mode),
    ]
}

// Numbers one after the other, as long as there is room.
fn put_numbers(out: &mut [u8], numbers: &[u64]) {
    for (eight, number) in out.chunks_exact_mut(8).zip(numbers) {
        eight.copy_from_slice(&number.to_le_bytes());
    }
}

fn put_coefficients(out: &mut [u8], coefficients: &[i32]) {
    for (eight, &number) in out.chunks_exact_mut(8).zip(coefficients) {
        eight.copy_from_slice(&signed(number).to_le_bytes());
    }
}

// The words are put where they stand: rows of them that are handed on by value, and chained, take several times as long.
pub fn words_of(answer: Result<Sheet, Refused>, last: u64) -> [u8; 440] {
    let mut out = [0; 440];
    match answer {
        Ok(sheet) => {
            put_numbers(&mut out[24..72], &head_words(sheet));
            put_coefficients(&mut out[72..432], &sheet.coefficients);
        }
        Err(refused) => put_numbers(&mut out[..24], &fault_words(refused)),
    }
    put_numbers(&mut out[432..], &[last]);
    out
}
