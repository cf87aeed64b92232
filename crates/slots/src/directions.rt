// The lines of a direction among the numbers of a slot: their degree, how far apart their entries stand, and in how many blocks they lie.
ghost use Rattle.std.specs.Prelude.{◌≡◌, ◌*◌};
ghost use Rattle.bernstein.specs.Three.{◌!◌};
ghost use Rattle.bernstein.specs.Places as Places;
ghost use Rattle.system.specs.Heads.{degrees};
ghost use Rattle.boxes.specs.Boxes.{direction};

use boxes::half::Direction;
use system::head::{Head, past};

// The lines of all m polynomials.
#[derive(Clone, Copy)]
pub struct Lines {
    pub degree: usize,
    pub stride: usize,
    pub blocks: usize,
}

impl Lines {
    pub fn along(r: Direction, h: Head) -> Self
        ensures degree { result.degree ≡ degrees h ! direction r }
        ensures stride { result.stride ≡ Places.stride (degrees h) (direction r) }
        ensures blocks { result.blocks ≡ h.m * Places.blocks (degrees h) (direction r) }
    {
        let (stride, blocks) = match r {
            Direction::First => (past(h.n2) * past(h.n3), 1),
            Direction::Second => (past(h.n3), past(h.n1)),
            Direction::Third => (1, past(h.n1) * past(h.n2)),
        };
        Lines {
            degree: r.of(h.n1, h.n2, h.n3).into(),
            stride,
            blocks: usize::from(h.m) * blocks,
        }
    }
}
