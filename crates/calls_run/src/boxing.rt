// The calls on a box: a half, and the middles with the half widths.
use boxes::half::Half;
use calls::answer::{Answer, Scaled};
use calls::header::Header;
use std::num::saturating_f64_to_u64;
use system::refusal::Refused;

pub fn half(header: &Header) -> Result<Answer, Refused> {
    let half = match header.half {
        Half::Lower => header.at.lower(header.direction)?,
        Half::Upper => header.at.upper(header.direction)?,
    };
    Ok(Answer::Half(half))
}

// Times 2^63, which makes every middle and every half width whole.
fn scaled(x: f64) -> u64 {
    saturating_f64_to_u64(x * 9223372036854775808.0)
}

pub fn middle(header: &Header) -> Result<Answer, Refused> {
    let m = header.at.middles()?;
    Ok(Answer::Middle(Scaled {
        middles: [m.middle1, m.middle2, m.middle3].map(scaled),
        halves: [m.half1, m.half2, m.half3].map(scaled),
    }))
}
