// A record's seven numbers as middles and half widths, or refused with 10.
ghost use Rattle.std.specs.Prelude.{◌≡◌};
ghost use Rattle.boxes.specs.Middles.{placed};
ghost use Rattle.runs.specs.Tables.{box_of};
ghost use Rattle.runs.specs.Lists.{first};

use boxes::half::Box;
use boxes::middle::Middles;
use system::refusal::{Refusal, Refused};

// A number of cuts is tested before it is made a byte.
pub fn place(kept: &[u16; 7]) -> Result<Middles, Refused>
    ensures { result ≡ placed (box_of (first kept.now)) }
{
    let [s1, k1, s2, k2, s3, k3, _] = *kept;
    if s1 > 10 || s2 > 10 || s3 > 10 {
        return Err(Refusal::OutsideRules.at_start());
    }
    let b = Box {
        s1: s1 as u8,
        k1,
        s2: s2 as u8,
        k2,
        s3: s3 as u8,
        k3,
    };
    b.middles()
}
