// A whole record: read from the start of a slice, written into a buffer.
ghost use Rattle.std.specs.Prelude.{◌≡◌, ◌+◌, leb};
ghost use Rattle.house.specs.Slices.{at_hand, data_in, written_in};

use crate::{Fault, Place, Record, Unwritten, head};

// Reads the record at the start of s: a bad one, none while not all of it is there, or a whole one with its data.
pub fn read_record(place: Place, s: &[u8]) -> Result<Option<Record>, Fault>
    ensures { result ≡ at_hand place s.now }
{
    if s.len() < 8 {
        return Ok(None);
    }
    let said = head::judge(place, s)?;
    if s.len() - 8 < head::length_of(said) {
        return Ok(None);
    }
    Ok(Some(said))
}

// The data of the record at the start of s.
pub fn data_of(said: Record, s: &[u8]) -> &[u8]
    ensures { result.now ≡ data_in said s.now }
{
    if s.len() < 8 {
        return &s[0..0];
    }
    let n = head::length_of(said);
    if s.len() - 8 < n {
        return &s[8..];
    }
    let end = 8 + n;
    &s[8..end]
}

// Whether size bytes have room for a head and n bytes of data from index at on.
fn has_room(size: usize, at: usize, n: usize) -> bool
    ensures { result ≡ leb (at + 8 + n) size }
{
    at <= size && 8 <= size - at && n <= size - at - 8
}

// Writes a record into out from index at on, and answers where it ends; or leaves out as it is.
pub fn write_record(
    said: Record,
    data: &[u8],
    out: &mut [u8],
    at: usize,
) -> Result<usize, Unwritten>
    ensures { record { answer = result; bytes = out.new } ≡ written_in said «data».now out.old at }
{
    if data.len() != head::length_of(said) {
        return Err(Unwritten::OtherLength);
    }
    if !has_room(out.len(), at, data.len()) {
        return Err(Unwritten::NoRoom);
    }
    let head = head::head_of(said);
    let from = block::put(out, at, &head);
    Ok(block::put(out, from, data))
}
