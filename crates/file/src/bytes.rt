// Numbers as bytes, the lowest byte first: two bytes, unsigned, and four bytes, signed.
ghost use Rattle.std.specs.Prelude.{◌≡◌, ◌+◌, ◌<◌, length};
ghost use Rattle.whole.specs.Size.{Below};
ghost use Rattle.file.specs.Bytes.{word16, word32, signed32, bytes32};

// The number of the two bytes from i on.
pub fn two(s: &[u8], i: usize) -> usize
    requires { i + 1 < length s.now }
    ensures { (result ≡ word16 s.now i) × (result < 65536) }
{
    usize::from(u16::from_le_bytes([s[i], s[i + 1]]))
}

// The signed number of the four bytes from i on.
pub fn four(s: &[u8], i: usize) -> i64
    requires { i + 3 < length s.now }
    ensures { result ≡ signed32 (word32 s.now i) }
{
    i64::from(i32::from_le_bytes([s[i], s[i + 1], s[i + 2], s[i + 3]]))
}

// The four bytes of x.
pub fn bytes_of(x: i64) -> [u8; 4]
    requires { Below 2147483648 x }
    ensures { result ≡ bytes32 x }
{
    (x as i32).to_le_bytes()
}
