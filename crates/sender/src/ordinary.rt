// The ordinary part of a TP: owed fill bytes, queued bytes, fill.
ghost use Rattle.std.specs.Prelude.{◌≡◌, ◌++◌, ◌+◌, ◌-◌, ◌≤◌, length, take};
ghost use Rattle.queue.specs.Ring.{held, Kept};
ghost use Rattle.sender.specs.Drawing.{fill, rest_after, offset};
ghost use Rattle.sender.specs.Steps.{Filled};

use crate::reading::span_at;
use queue::Ring;

// How many bytes of the EP under way are left once n bytes more are drawn.
pub fn rest_after(buf: &[u8], q: Ring, rest: usize, n: usize) -> usize
    requires kept { Kept buf.now q }
    requires rest_le_len { (rest ≤ q.len) × (n ≤ q.len) × (q.len ≤ 1048576) }
    ensures { (result ≡ rest_after n (held buf.now q) rest) × (result ≤ q.len - n) }
{
    let mut at = rest;
    // from EP to EP, each as long as its header says: there is no range or iterator of them
    while at < n {
        at += span_at(buf, q, at);
    }
    at - n
}

// Writes fill into dst from place at to its end, and tells how many of its bytes are owed.
pub fn fill_part(dst: &mut [u8], at: usize) -> usize
    requires { (at ≤ length dst.old) × (length dst.old ≤ 2051) }
    ensures dst_after { dst.new ≡ take at dst.old ++ take (length dst.old - at) (fill (length dst.old - at)) }
    ensures value { result ≡ length (fill (length dst.old - at)) - (length dst.old - at) }
{
    let m = dst.len() - at;
    if m == 0 {
        return 0;
    }
    if m < 6 {
        let h = wire::header_of(0, 0, 0);
        queue::copy_at(dst, at, &h[0..m]);
        return 6 - m;
    }
    // no TP has 4,096 bytes: the compiler need not encode the upper bits
    let h = wire::header_of(0, 0, ((m - 6) % 4096) as u16);
    queue::copy_at(dst, at, &h);
    queue::fill_at(dst, at + 6, m - 6, 0xAA);
    0
}

// The ring behind the part, how many queued bytes it took, and how many fill bytes are owed.
#[derive(Clone, Copy)]
pub struct Own {
    pub ring: Ring,
    pub gone: usize,
    pub owed: usize,
}

// Writes owed and queued bytes into a TP from place at to its end: the queue has enough. No twin of the next function, which counts.
fn queued_part(buf: &[u8], q: Ring, owed: usize, tp: &mut [u8], at: usize) -> Own
    requires kept { Kept buf.now q }
    requires at_in_bounds { (at ≤ length tp.old) × (length tp.old ≤ 2051) × (owed ≤ length tp.old - at) × (length tp.old - at - owed ≤ q.len) }
    ensures { Filled buf.now q owed tp.old at tp.new result.ring result.gone result.owed }
{
    let n = tp.len() - at - owed;
    queue::fill_at(tp, at, owed, 0);
    let t = q.pop_into(buf, tp, at + owed, n);
    Own {
        ring: t,
        gone: n,
        owed: 0,
    }
}

// The same from any queue, with fill behind what it has.
fn padded_part(buf: &[u8], q: Ring, owed: usize, tp: &mut [u8], at: usize) -> Own
    requires kept { Kept buf.now q }
    requires at_in_bounds { (at ≤ length tp.old) × (length tp.old ≤ 2051) × (owed ≤ 5) }
    ensures { Filled buf.now q owed tp.old at tp.new result.ring result.gone result.owed }
{
    let r = tp.len() - at;
    let k = owed.min(r);
    queue::fill_at(tp, at, k, 0);
    let n = (r - k).min(q.len);
    let t = q.pop_into(buf, tp, at + k, n);
    let more = fill_part(tp, at + k + n);
    Own {
        ring: t,
        gone: n,
        owed: owed - k + more,
    }
}

// Writes ordinary bytes into a TP from place at to its end.
pub fn ordinary_part(buf: &[u8], q: Ring, owed: usize, tp: &mut [u8], at: usize) -> Own
    requires kept { Kept buf.now q }
    requires at_in_bounds { (at ≤ length tp.old) × (length tp.old ≤ 2051) × (owed ≤ 5) }
    ensures { Filled buf.now q owed tp.old at tp.new result.ring result.gone result.owed }
{
    let r = tp.len() - at;
    if owed <= r {
        if r - owed <= q.len {
            return queued_part(buf, q, owed, tp, at);
        }
    }
    padded_part(buf, q, owed, tp, at)
}

// Where the first ordinary EP begins, behind a low-latency part of low bytes and first ordinary ones. Not an Option: where none
// begins, document 01 and the definition `offset` have 2047 stand in the TP.
pub fn offset_of(low: usize, first: usize, r: usize) -> u16
    requires { low + r ≤ 2047 }
    ensures { result ≡ offset low first r }
{
    if first < r {
        return (low + first) as u16;
    }
    2047
}
