// Headers read from queued bytes, without repair.
ghost use Rattle.std.specs.Prelude.{◌≡◌, ◌+◌, ◌*◌, ◌≤◌, ◌<◌, drop};
ghost use Rattle.queue.specs.Ring.{held, Kept};
ghost use Rattle.sender.specs.Drawing.{head_at, size_in, low_in, low_at, span};
ghost use Rattle.sender.specs.Steps.{found};

use crate::complete::first_word;
use golay::pair::Pair;
use queue::Ring;

// The header at place i of what the ring holds, of which each byte is looked for by itself.
fn head_across(buf: &[u8], q: Ring, i: usize) -> u64
    requires kept { Kept buf.now q }
    requires i_bound { i + 6 ≤ q.len }
    ensures { (result ≡ head_at (drop i (held buf.now q))) × (result < 281474976710656) }
{
    let a = digits::from_four(
        q.byte_at(buf, i),
        q.byte_at(buf, i + 1),
        q.byte_at(buf, i + 2),
        q.byte_at(buf, i + 3),
    );
    let b = digits::from_two(q.byte_at(buf, i + 4), q.byte_at(buf, i + 5));
    a as u64 * 65536 + b as u64
}

fn size_in(h: u64) -> usize
    ensures { (result ≡ size_in h) × (result < 65536) }
{
    (h / 68719476736 % 16 * 4096 + h / 4096 % 4096) as usize
}

// The two words of the header at the head of what the ring holds.
fn words_at(buf: &[u8], q: Ring) -> Pair
    requires kept { Kept buf.now q }
    requires le_len { 6 ≤ q.len }
    ensures { (result.first * 16777216 + result.second ≡ head_at (held buf.now q)) × ((result.first < 16777216) × (result.second < 16777216)) }
{
    let at = q.place_of(buf.len(), 0);
    if buf.len() - at < 6 {
        let h = head_across(buf, q, 0);
        return Pair {
            first: (h / 16777216) as u32,
            second: (h % 16777216) as u32,
        };
    }
    Pair {
        first: digits::from_three(buf[at], buf[at + 1], buf[at + 2]),
        second: digits::from_three(buf[at + 3], buf[at + 4], buf[at + 5]),
    }
}

// The bytes of the EP with these header words at the head of n queued bytes, if it could have been accepted.
fn low_in(payload: usize, n: usize, w: Pair) -> Option<usize>
    requires { (6 ≤ n) × ((payload ≤ 2047) × ((w.first < 16777216) × (w.second < 16777216))) }
    ensures { result ≡ found (low_in payload n (w.first * 16777216 + w.second)) }
{
    // of a longer one the payload has no room
    let size = (w.second / 4096) as usize;
    if n - 6 < size || payload < 7 + size {
        return None;
    }
    let first = first_word((w.first / 262144) as u8)?;
    if first != w.first || golay::encode(size as u16) != w.second {
        return None;
    }
    Some(6 + size)
}

// The same for what the ring holds.
pub fn low_at(payload: usize, buf: &[u8], q: Ring) -> Option<usize>
    requires kept { Kept buf.now q }
    requires payload_bound { payload ≤ 2047 }
    ensures { result ≡ found (low_at payload (held buf.now q)) }
{
    if q.len < 6 {
        return None;
    }
    low_in(payload, q.len, words_at(buf, q))
}

// The length in the header at place i of what the ring holds. Only the four bytes about it are read.
fn size_at(buf: &[u8], q: Ring, i: usize) -> usize
    requires kept { Kept buf.now q }
    requires i_bound { i + 6 ≤ q.len }
    ensures { (result ≡ size_in (head_at (drop i (held buf.now q)))) × (result < 65536) }
{
    let at = q.place_of(buf.len(), i);
    if buf.len() - at < 6 {
        return size_in(head_across(buf, q, i));
    }
    let x = digits::from_four(buf[at + 1], buf[at + 2], buf[at + 3], buf[at + 4]);
    x / 268435456 * 4096 + x / 16 % 4096
}

// The bytes of the EP at place at, at most what is held.
pub fn span_at(buf: &[u8], q: Ring, at: usize) -> usize
    requires kept { Kept buf.now q }
    requires at_lt_len { (at < q.len) × (q.len ≤ 1048576) }
    ensures { result ≡ span (drop at (held buf.now q)) }
{
    let left = q.len - at;
    if left < 6 {
        return left;
    }
    (6 + size_at(buf, q, at)).min(left)
}
