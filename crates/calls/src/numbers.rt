// Numbers as a call has them: eight bytes each, the low byte first.
use crate::ended::Ended;
use std::io::Read;
use std::num::TryFromIntError;

// As many numbers as one read takes.
const BLOCK: usize = 512;

pub trait Number: Copy {
    fn to_bytes(self) -> [u8; 8];

    fn from_bytes(bytes: [u8; 8]) -> Result<Self, Ended>;
}

impl Number for i64 {
    fn to_bytes(self) -> [u8; 8] {
        self.to_le_bytes()
    }

    fn from_bytes(bytes: [u8; 8]) -> Result<i64, Ended> {
        Ok(i64::from_le_bytes(bytes))
    }
}

impl Number for u16 {
    fn to_bytes(self) -> [u8; 8] {
        u64::from(self).to_le_bytes()
    }

    fn from_bytes(bytes: [u8; 8]) -> Result<u16, Ended> {
        Ok(u16::try_from(u64::from_le_bytes(bytes))?)
    }
}

// The next number of the input.
pub fn next_number<R: Read>(from: &mut R) -> Result<u64, Ended> {
    let mut bytes = [0; 8];
    from.read_exact(&mut bytes)?;
    Ok(u64::from_le_bytes(bytes))
}

// The next number, as a type that may not hold it.
pub fn next_field<R: Read, T: TryFrom<u64, Error = TryFromIntError>>(
    from: &mut R,
) -> Result<T, Ended> {
    Ok(T::try_from(next_number(from)?)?)
}

// Fills the places with the next numbers of the input.
pub fn fill<R: Read, T: Number>(from: &mut R, places: &mut [T]) -> Result<(), Ended> {
    let mut block = [[0u8; 8]; BLOCK];
    for part in places.chunks_mut(BLOCK) {
        let bytes = &mut block[..part.len()];
        from.read_exact(bytes.as_flattened_mut())?;
        for (place, &eight) in part.iter_mut().zip(bytes.iter()) {
            *place = T::from_bytes(eight)?;
        }
    }
    Ok(())
}
