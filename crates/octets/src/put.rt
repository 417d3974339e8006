// Bytes put at a place of others.
ghost use Rattle.octets.specs.Octets.{PutAt};

// Says where the bytes end, or None where they pass the end: then nothing is written.
pub fn put_at(src: &[u8], out: &mut [u8], at: usize) -> Option<usize>
    ensures { PutAt src.now out.old at out.new result }
{
    let end = at.checked_add(src.len())?;
    // kept: tried, and the proof did not close: after a `get_mut(at..end)?` nothing is known of what `out` holds
    if end > out.len() {
        return None;
    }
    out[at..end].copy_from_slice(src);
    Some(end)
}
