// A kept box as the table builder wants it: middles and half widths, or refusal 10 for a record that is no box.
ghost use Rattle.std.specs.Prelude.{◌≡◌};
ghost use Rattle.boxes.specs.Middles.{placed};
ghost use Rattle.runs.specs.Tables.{box_of};

use boxes::middle::Middles;
use system::refusal::Refused;
use waiting::cursor::Kept;

pub fn middles(k: Kept) -> Result<Middles, Refused>
    ensures { result ≡ placed (box_of k) }
{
    k.at.middles()
}
