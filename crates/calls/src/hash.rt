// FNV-1a with 64 bits.
ghost use Rattle.std.specs.Iterator.{IsFinite};

use crate::numbers::Number;

const BASIS: u64 = 0xcbf2_9ce4_8422_2325;

const PRIME: u64 = 0x100_0000_01b3;

fn of<Bytes: Iterator<Item = u8> + Drop>(bytes: Bytes) -> u64
    requires { Bytes.can_next bytes × IsFinite (Bytes.remaining bytes) }
{
    bytes.fold(BASIS, |hash, byte| {
        (hash ^ u64::from(byte)).wrapping_mul(PRIME)
    })
}

pub fn of_bytes(bytes: &[u8]) -> u64 {
    of(bytes.iter().copied())
}

pub fn of_numbers<T: Number>(numbers: &[T]) -> u64 {
    of(numbers.iter().flat_map(|x| x.to_bytes()))
}
