// The smallest pieces of a file as bytes, and bytes put into the lent target.
ghost use Rattle.std.specs.Prelude.{◌≡◌, [], ◌∷◌, ◌++◌, ◌+◌, ◌≤◌, length};
ghost use Rattle.whole.specs.Size.{Below};
ghost use Rattle.file.specs.Bytes.{bytes16, bytes32, over};
ghost use Rattle.file.specs.Records.{kind_number};
ghost use Rattle.writing.specs.Writing.{record_bytes, head_body};

use file::bytes::bytes_of;
use file::parser::Kind;
use system::head::Head;

// A record's header.
pub fn header(len: u16, kind: Kind) -> [u8; 4]
    ensures { result ≡ bytes16 len ++ (kind_number kind ∷ 0 ∷ []) }
{
    let bytes = len.to_le_bytes();
    [bytes[0], bytes[1], u8::from(kind), 0]
}

pub fn term(i1: u8, i2: u8, i3: u8, x: i64) -> [u8; 7]
    requires { Below 2147483648 x }
    ensures { result ≡ i1 ∷ i2 ∷ i3 ∷ bytes32 x }
{
    let bytes = bytes_of(x);
    [i1, i2, i3, bytes[0], bytes[1], bytes[2], bytes[3]]
}

// The first record.
pub fn head_record(h: Head) -> [u8; 12]
    ensures { result ≡ record_bytes 1 (head_body h) }
{
    [8, 0, 1, 0, h.l, h.m, h.n1, h.n2, h.n3, h.g1, h.g2, h.g3]
}

// Answers where the next byte goes. Target and offset stay two: the writer's definitions are of bytes at a place of one target, and say nothing of a rest.
pub fn put(target: &mut [u8], at: usize, bytes: &[u8]) -> usize
    requires { at + length bytes.now ≤ length target.old }
    ensures { (result ≡ at + length bytes.now) × (target.new ≡ over target.old at bytes.now) }
{
    let end = at + bytes.len();
    target[at..end].copy_from_slice(bytes);
    end
}
