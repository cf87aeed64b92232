// A refusal as C has it: a code and an offset.
ghost use Rattle.std.specs.Prelude.{◌≡◌};
ghost use Rattle.system.specs.Refusals.{number};

use system::refusal::Refused;

pub fn refuse(x: Refused, offset: &mut u64) -> u32
    ensures { (result ≡ number x.why) × (offset.new ≡ x.at) }
{
    *offset = x.at as u64;
    u8::from(x.why).into()
}
