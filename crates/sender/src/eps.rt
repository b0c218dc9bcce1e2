// An SP's EPs, put into a queue.
ghost use Rattle.std.specs.Prelude.{◌≡◌, true, ◌+◌, ◌≤◌, ◌<◌, length, drop};
ghost use mathlib.Core.List.{◌++◌, flatten};
ghost use Rattle.queue.specs.Ring.{Kept};
ghost use Rattle.sender.specs.Offering.{known, later, sp_bytes};
ghost use Rattle.sender.specs.Steps.{Put};

use queue::Ring;

// Puts an EP, its header and then its data, behind what the ring holds. Ring and buffer come apart here and below, since the buffer is
// the caller's, who lends it anew with each call of the C interface.
pub fn put_ep(buf: &mut [u8], q: Ring, h: [u8; 6], body: &[u8]) -> Ring
    requires kept { Kept buf.old q }
    requires body_in_bounds { (q.len + (6 + length body.now) ≤ length buf.old) × (length body.now ≤ 65536) }
    ensures { record { ring = result; bytes = buf.new } ≡ Put buf.old q (h ++ body.now) }
{
    q.push(buf, h, body)
}

// The bytes that the EPs of an SP in several pieces take.
pub fn in_pieces(content: u8, sp: &[u8], piece: usize) -> usize
    requires { (1 ≤ piece) × ((piece < length sp.now) × (length sp.now ≤ 1048576)) }
    ensures { result ≡ length (sp_bytes piece content sp.now) }
{
    let n = sp.len();
    n + 6 * ((n - 1) / piece + 1)
}

// Puts the pieces after the first behind what the ring holds. All middle ones have one header.
fn put_later(buf: &mut [u8], q: Ring, content: u8, sp: &[u8], piece: usize) -> Ring
    requires kept { Kept buf.old q }
    requires le_piece { (1 ≤ piece) × (piece ≤ 65535) × (piece < length sp.now) }
    requires sp_in_bounds { q.len + length (flatten (later (length sp.now) piece content (drop piece sp.now))) ≤ length buf.old }
    ensures { record { ring = result; bytes = buf.new } ≡ Put buf.old q (flatten (later (length sp.now) piece content (drop piece sp.now))) }
{
    let middle = wire::header_of(content, 2, piece as u16);
    let mut t = q;
    let mut rest = &sp[piece..];
    while piece < rest.len() {
        t = put_ep(buf, t, middle, &rest[..piece]);
        rest = &rest[piece..];
    }
    let last = wire::header_of(content, 3, rest.len() as u16);
    put_ep(buf, t, last, rest)
}

// Puts an SP's EPs behind what the ring holds.
pub fn put_sp(buf: &mut [u8], q: Ring, content: u8, sp: &[u8], piece: usize) -> Ring
    requires kept { Kept buf.old q }
    requires le_piece { (1 ≤ piece) × ((piece ≤ 65535) × (known content ≡ true)) }
    requires sp_in_bounds { q.len + length (sp_bytes piece content sp.now) ≤ length buf.old }
    ensures { record { ring = result; bytes = buf.new } ≡ Put buf.old q (sp_bytes piece content sp.now) }
{
    if sp.len() <= piece {
        // not 4,096, by which the compiler would read a record's length byte by byte
        if sp.len() < 4095 {
            let short = crate::complete::short_header(content, sp.len());
            return put_ep(buf, q, short, sp);
        }
        let complete = wire::header_of(content, 0, sp.len() as u16);
        return put_ep(buf, q, complete, sp);
    }
    let first = wire::header_of(content, 1, piece as u16);
    let t = put_ep(buf, q, first, &sp[0..piece]);
    put_later(buf, t, content, sp, piece)
}
