// What the lines are made of.
use crate::digest::digest;
use console::Console;
use receiver::Find;

// The block is written out when so much is held; a line more always has room.
const FULL: usize = 61440;

// A space and the digest of a buffer's first bytes.
pub fn put_digest(out: &mut [u8], at: usize, s: &[u8], most: usize) -> usize {
    let n = most.min(s.len());
    let next = block::put(out, at, b" ");
    block::put_number(out, next, digest(&s[..n]))
}

// Both queues, and the line's end.
pub fn put_queues(out: &mut [u8], at: usize, ordinary: &[u8], low: &[u8], limit: usize) -> usize {
    let mut next = put_digest(out, at, ordinary, limit);
    next = put_digest(out, next, low, limit);
    block::put(out, next, b"\n")
}

fn put_packet(out: &mut [u8], at: usize, content: u8, stretch: &[u8]) -> usize {
    let mut next = block::put_number(out, at, content as u64);
    next = block::put(out, next, b" ");
    next = block::put_number(out, next, stretch.len() as u64);
    put_digest(out, next, stretch, stretch.len())
}

// What a call of the receiver gave; the stretch is the packet's.
pub fn put_find(out: &mut [u8], at: usize, find: Find, stretch: &[u8]) -> usize {
    match find {
        Find::Nothing => block::put(out, at, b"none"),
        Find::Refused => block::put(out, at, b"1"),
        Find::Notice(n) => block::put_number(out, at, n as u64),
        Find::Low { content, .. } => {
            let next = block::put(out, at, b"low ");
            put_packet(out, next, content, stretch)
        }
        Find::Ordinary { content, .. } => {
            let next = block::put(out, at, b"ordinary ");
            put_packet(out, next, content, stretch)
        }
    }
}

// Room for a line.
pub fn freed(console: Console<'_>, out: &[u8], at: usize) -> usize {
    if at < FULL {
        return at;
    }
    console.flush(out, at);
    0
}
