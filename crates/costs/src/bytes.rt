// Bytes at the front of a slice.
ghost use Rattle.std.specs.Prelude.{◌≡◌, ◌^◌, ◌<◌, drop, slice_index};
ghost use Rattle.costs.specs.Bytes.{big_endian, first_bytes, over};

// Writes all bytes that have room.
pub fn put(bytes: &[u8], out: &mut [u8])
    ensures { out.new ≡ over bytes.now out.old }
{
    let room = bytes.len().min(out.len());
    out[..room].copy_from_slice(&bytes[..room]);
}

// The byte at `i`, or 0 where there is none.
pub fn byte_at(bytes: &[u8], i: usize) -> u8
    ensures { result ≡ slice_index bytes.now i }
{
    bytes.get(i).copied().unwrap_or(0)
}

// The first `N` bytes; a missing byte counts as 0.
pub fn first_bytes<const N: usize>(bytes: &[u8]) -> [u8; N]
    ensures { result ≡ first_bytes N bytes.now }
{
    let mut first = [0; N];
    put(bytes, &mut first);
    first
}

// The `N` bytes from `start` on; a missing byte counts as 0.
pub(crate) fn bytes_from<const N: usize>(bytes: &[u8], start: usize) -> [u8; N]
    ensures { result ≡ first_bytes N (drop start bytes.now) }
{
    first_bytes(&bytes[start.min(bytes.len())..])
}

// The number that the first four bytes write, the highest first; a missing byte counts as 0.
pub fn number_32(bytes: &[u8]) -> u32
    ensures digits { big_endian 4 result ≡ first_bytes 4 bytes.now }
    ensures bound { result < 2 ^ 32 }
{
    u32::from_be_bytes(bytes_from(bytes, 0))
}
