// Total reading of bytes: one that is not there reads as 0.
#![tactic(auto)]

ghost use Rattle.byte_reading.specs.Bytes.{low_first};
ghost use Rattle.std.specs.Prelude.{◌≡◌, slice_index};

pub fn byte_at(bytes: &[u8], at: usize) -> u8
    ensures { result ≡ slice_index bytes.now at }
{
    bytes.get(at).copied().unwrap_or(0)
}

// The number of four bytes, low byte first.
pub fn read_u32(bytes: &[u8]) -> u64
    ensures { result ≡ low_first 4 0 bytes.now }
{
    let number = u32::from_le_bytes([
        byte_at(bytes, 0),
        byte_at(bytes, 1),
        byte_at(bytes, 2),
        byte_at(bytes, 3),
    ]);
    u64::from(number)
}

// The number of eight bytes, low byte first.
pub fn read_u64(bytes: &[u8]) -> u64
    ensures { result ≡ low_first 8 0 bytes.now }
{
    u64::from_le_bytes([
        byte_at(bytes, 0),
        byte_at(bytes, 1),
        byte_at(bytes, 2),
        byte_at(bytes, 3),
        byte_at(bytes, 4),
        byte_at(bytes, 5),
        byte_at(bytes, 6),
        byte_at(bytes, 7),
    ])
}
