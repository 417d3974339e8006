// Numbers read at a place of bytes: none where they pass the end.
// kept: bytes and a place beside each other, no plainer as a struct, since that pair is what the promise `ReadAt` speaks of
ghost use Rattle.octets.specs.BigEndian.{be2, be4, be8, be_id};
ghost use Rattle.octets.specs.Octets.{ReadAt};

pub fn u16_at(bytes: &[u8], at: usize) -> Option<u16>
    ensures { ReadAt 2 be2 bytes.now at result }
{
    array_at(bytes, at).map(u16::from_be_bytes)
}

pub fn u32_at(bytes: &[u8], at: usize) -> Option<u32>
    ensures { ReadAt 4 be4 bytes.now at result }
{
    array_at(bytes, at).map(u32::from_be_bytes)
}

pub fn u64_at(bytes: &[u8], at: usize) -> Option<u64>
    ensures { ReadAt 8 be8 bytes.now at result }
{
    array_at(bytes, at).map(u64::from_be_bytes)
}

pub fn i32_at(bytes: &[u8], at: usize) -> Option<i32>
    ensures { ReadAt 4 be_id bytes.now at result }
{
    u32_at(bytes, at).map(u32::cast_signed)
}

// As many bytes as the array has.
fn array_at<const N: usize>(bytes: &[u8], at: usize) -> Option<[u8; N]>
    ensures { ReadAt N (λ read. read) bytes.now at result }
{
    bytes.get(at..)?.first_chunk().copied()
}
