// Document 01 as definitions, and what is proved of them. Its one type is the table's refusals, by name.
// An inner crate: types, and no functions.
#![tactic(auto)]

// The refusals of the calls and of a text, each with its number in the table: `refusal as u32`.
#[derive(Clone, Copy, Debug, PartialEq, Eq)]
pub enum Refusal {
    // d > 8
    Degree = 1,
    // coefficient count is not n
    Count = 2,
    // k > 7
    Depth = 3,
    // X or Y outside its range, or s > 10
    Range = 4,
    // mode is neither 0 nor 1
    Mode = 5,
    // weight is 2^62 or more
    Weight = 6,
    // a place, or a raster, that is too short
    Place = 7,
    // a cell or a point outside the square
    Outside = 8,
    // visited above 65,535
    Visited = 9,
    // text longer than 8,192 bytes
    Text = 11,
    // not a plain PBM, a size of 0, or data cut short
    NotPlain = 12,
    // sizes unequal or not a power of two up to 128
    Sides = 13,
    // a letter that is not the line's, or a missing line
    Letter = 14,
    // the count of fields
    Fields = 15,
    // a number badly written
    Written = 16,
    // a number outside its range
    Within = 17,
    // a term beyond the declared degree
    Beyond = 18,
    // a term given twice
    Twice = 19,
    // a line without LF
    Unended = 20,
}
