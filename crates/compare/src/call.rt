// A case handed to the call that it names.
use crate::answer::{Answer, of_verdict};
use crate::case::Case;
use walk::Records;
use words::code;

pub fn check(case: &Case) -> Answer {
    let checked = probe::check(case.d, case.coefficients(), case.x, case.y, case.s, case.k)?;
    Ok([checked.weight, u64::from(checked.spare), 0, 0])
}

pub fn value(case: &Case) -> Answer {
    let f = probe::value(
        case.d,
        case.coefficients(),
        case.x,
        case.y,
        case.s,
        case.k,
        case.u,
        case.v,
    )?;
    Ok([code(f), 0, 0, 0])
}

pub fn bounds(case: &Case) -> Answer {
    let verdict = probe::bounds(
        case.d,
        case.coefficients(),
        case.x,
        case.y,
        case.s,
        case.k,
        case.mode,
        case.j,
        case.p,
        case.q,
    )?;
    Ok(of_verdict(verdict))
}

pub fn raster(case: &Case, place: &mut [u8]) -> Answer {
    let seen = walk::raster(
        case.d,
        case.coefficients(),
        case.x,
        case.y,
        case.s,
        case.k,
        case.mode,
        place,
    )?;
    Ok([
        u64::from(seen.visited),
        u64::from(seen.coloured),
        seen.bend,
        0,
    ])
}

pub fn listing(case: &Case, place: &mut [u32]) -> Answer {
    let Records { length, seen } = walk::listing(
        case.d,
        case.coefficients(),
        case.x,
        case.y,
        case.s,
        case.k,
        case.mode,
        place,
    )?;
    Ok([
        length as u64,
        u64::from(seen.visited),
        u64::from(seen.coloured),
        seen.bend,
    ])
}
