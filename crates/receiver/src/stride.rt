// EPs taken in strides, where nothing is to be judged. Between two EPs, with two intact words ahead: fill that is whole, with
// nothing kept; a whole middle of the packet that is kept. With any header that can be read: a complete EP that the room has
// place for. All else is for turns.
ghost use Rattle.std.specs.Prelude.{◌+◌, ◌-◌, ◌≤◌, min, ◌≡◌, length, take, drop};
ghost use Rattle.digits.specs.Digits.{number};
ghost use Rattle.wire.specs.Reading.{header_in};
ghost use Rattle.receiver.specs.declared.kind.Kind.TheVariants.{Complete};
ghost use Rattle.receiver.specs.Kind.{kind_of};
ghost use Rattle.receiver.specs.State.{Sound, kept_by};
ghost use Rattle.receiver.specs.Turns.{body_turn};
ghost use Rattle.receiver.specs.InWalk.{pasted};
ghost use Rattle.receiver.specs.InLanes.{FitsIf};
ghost use Rattle.receiver.specs.InStride.{HeaderAt, FillAt, MiddleAt, CompleteAt, Skips, Joins, Strides, between};

use crate::walk::{Gain, Kept, Phase, Turn, Walk};
use crate::{Place, Stamp, judge, stamps, walk};
use wire::Header;

// Behind middles of the packet that is kept: where in the TP, and how many of its bytes are in the room.
#[derive(Clone, Copy)]
pub struct Joined {
    pub at: usize,
    pub len: usize,
}

// The header at `at`, if two intact words stand there.
pub fn header_at(tp: &[u8], at: usize) -> Option<Header>
    requires { at ≤ length tp.now }
    ensures { HeaderAt tp.now at result }
{
    if tp.len() - at < 6 {
        return None;
    }
    wire::read_intact(walk::six(tp, at))
}

// The fill EP at `at`, if it is whole. Its first byte is below 4.
fn fill_at(tp: &[u8], at: usize) -> Option<Header>
    requires { at ≤ length tp.now }
    ensures { FillAt tp.now at result }
{
    let rest = tp.len() - at;
    if rest < 6 {
        return None;
    }
    if 4 <= tp[at] {
        return None;
    }
    let h = wire::read_intact(walk::six(tp, at))?;
    if h.content != 0 {
        return None;
    }
    if rest - 6 < h.size {
        return None;
    }
    Some(h)
}

// Past fill, from `start` on.
pub fn past_fill(tp: &[u8], start: usize) -> usize
    requires { start ≤ length tp.now }
    ensures { Skips tp.now start result }
{
    let mut at = start;
    while let Some(h) = fill_at(tp, at) {
        at += 6 + h.size;
    }
    at
}

// The middle at `at`, if it is whole, of this content and of at most so many data. Its first byte ends in the bits 10.
fn middle_at(tp: &[u8], at: usize, content: u8, most: usize) -> Option<Header>
    requires { at ≤ length tp.now }
    ensures { MiddleAt tp.now at content most result }
{
    if tp.len() <= at {
        return None;
    }
    if tp[at] % 4 != 2 {
        return None;
    }
    let h = header_at(tp, at)?;
    if h.content != content {
        return None;
    }
    if h.content < 1 {
        return None;
    }
    if h.fragment != 2 {
        return None;
    }
    if most < h.size {
        return None;
    }
    if tp.len() - at - 6 < h.size {
        return None;
    }
    Some(h)
}

// Past middles of the packet of this content, of which so many bytes are in the room.
pub fn past_middles(tp: &[u8], start: usize, content: u8, first: usize, room: &mut [u8]) -> Joined
    requires { (start ≤ length tp.now) × (first ≤ length room.old) }
    ensures { Joins (length room.old) tp.now content start first room.old result.at result.len room.new }
{
    let mut at = start;
    let mut len = first;
    while let Some(h) = middle_at(tp, at, content, room.len() - len) {
        let from = at + 6;
        at = from + h.size;
        queue::copy_at(room, len, &tp[from..at]);
        len += h.size;
    }
    Joined { at, len }
}

// The header of six bytes; two intact words leave at once.
pub fn read_at(tp: &[u8], at: usize) -> Option<Header>
    requires { at + 6 ≤ length tp.now }
    ensures { result ≡ header_in (number 0 (take 6 (drop at tp.now))) }
{
    let word = walk::six(tp, at);
    let Some(h) = wire::read_intact(word) else {
        return wire::read_header(word);
    };
    Some(h)
}

// Whether a header is that of a complete EP of at most so many data.
pub fn fits(h: Header, most: usize) -> bool
    ensures { FitsIf result h most }
{
    if h.fragment != 0 {
        return false;
    }
    if h.content < 1 {
        return false;
    }
    if 6 < h.content {
        return false;
    }
    h.size <= most
}

// The data of a complete EP that began there, up to its end or the TP's.
fn taken(tp: &[u8], from: usize, header: Header, began: Place, room: &mut [u8]) -> Turn
    requires { (from ≤ length tp.now) × (header.size ≤ length room.old) × (kind_of header ≡ Complete) }
    ensures value { result ≡ body_turn tp.now from header header.size began (kept_by header.content header.flips began 0) }
    ensures room_after { room.new ≡ pasted (kept_by header.content header.flips began 0) room.old (drop from tp.now) (min header.size (length tp.now - from)) }
{
    let size = header.size;
    let content = header.content;
    let repaired = header.flips as u64;
    let n = size.min(tp.len() - from);
    let end = from + n;
    queue::copy_at(room, 0, &tp[from..end]);
    if n < size {
        let left = size - n;
        let kept = Some(Kept {
            content,
            repaired,
            began,
            len: n,
        });
        return judge::stop(
            end,
            Phase::Body { header, left },
            began,
            kept,
            Gain::Nothing,
        );
    }
    let packet = Gain::Packet {
        content,
        repaired,
        began,
        len: size,
    };
    judge::stop(end, Phase::Head { have: 0, word: 0 }, began, None, packet)
}

// The complete EP at `at`, of at most so many data, also by words that are not intact.
fn readable_at(tp: &[u8], at: usize, most: usize) -> Option<Header>
    requires { at ≤ length tp.now }
    ensures { CompleteAt tp.now at most result }
{
    if tp.len() - at < 6 {
        return None;
    }
    let h = read_at(tp, at)?;
    if fits(h, most) {
        return Some(h);
    }
    None
}

// With nothing kept: past fill, and the complete EP behind it.
fn free(start: usize, began: Place, stamp: Stamp, tp: &[u8], room: &mut [u8]) -> Turn
    requires { start ≤ length tp.now }
    ensures { Strides (length room.old) stamp (between start began None) tp.now room.old result room.new }
{
    let at = past_fill(tp, start);
    let Some(h) = readable_at(tp, at, room.len()) else {
        return Turn::More(Walk {
            at,
            phase: Phase::Head { have: 0, word: 0 },
            began,
            kept: None,
        });
    };
    taken(tp, at + 6, h, stamps::of(stamp, at), room)
}

// As far as strides go from between two EPs; from elsewhere nowhere.
pub fn on(w: Walk, stamp: Stamp, tp: &[u8], room: &mut [u8]) -> Turn
    requires { Sound (length room.old) (length tp.now) w }
    ensures { Strides (length room.old) stamp w tp.now room.old result room.new }
{
    let phase = w.phase;
    let Phase::Head { have, word: _ } = phase else {
        return Turn::More(w);
    };
    if have != 0 {
        return Turn::More(w);
    }
    match w.kept {
        None => free(w.at, w.began, stamp, tp, room),
        Some(k) => {
            if 0xFFFF_FFFF < k.repaired {
                return Turn::More(w);
            }
            let j = past_middles(tp, w.at, k.content, k.len, room);
            let grown = Some(Kept { len: j.len, ..k });
            Turn::More(Walk {
                at: j.at,
                phase,
                kept: grown,
                ..w
            })
        }
    }
}
