// A lane as plain numbers, for a loop that goes from TP to TP by it: the compiler keeps numbers apart, where it would move an enum as a whole.
// What no track covers is left to a call.
ghost use Rattle.std.specs.Prelude.{◌≡◌, cond, false, ◌⊎◌, ◌+◌, ◌-◌, ◌≤◌, ◌<◌, ◌^◌, leb, length, take, drop};
ghost use Rattle.digits.specs.Digits.{number};
ghost use Rattle.wire.specs.Reading.{header_in};
ghost use Rattle.receiver.specs.State.{Able, Settled};
ghost use Rattle.receiver.specs.declared.lane.Lane.TheVariants as L;
ghost use Rattle.receiver.specs.Turns.{walk_at};
ghost use Rattle.receiver.specs.Lanes.{in_lane};
ghost use Rattle.receiver.specs.InTracks.{UnkeptAs, KeptAs, sight_of};
ghost use Rattle.receiver.specs.Tracks.{Placed, place_in, lane_in, Kempt, turned_of, TracksAs, Seen, BehindAs, SetsOut, BriefAs, DroppedAs, FilledIf};

pub use crate::entry::Top;
use crate::lane::Lane;
use crate::walk::Phase;
use crate::{Place, Receiver, Stage, Stamp, entry, lane, low, over, stamps, stride, walk};
use golay::End;
use wire::{Header, TpWord};

// The sorts of a track: those of a lane, and none.
pub const LOST: usize = 0;

pub const IDLE: usize = 1;

pub const CUT: usize = 2;

pub const BUSY: usize = 3;

pub const NONE: usize = 4;

// What the numbers beside the sort say is a lane's; those that a sort doesn't need are whatever they were.
#[derive(Clone, Copy)]
pub struct Track {
    pub sort: usize,
    pub number: u64,
    pub byte: u64,
    pub begun: usize,
    pub have: usize,
    pub word: u64,
    pub left: usize,
    pub len: usize,
    pub content: usize,
    pub flips: usize,
}

// What stands ahead of a place between two EPs: something that is left to a call; the TP's end, or a header that it cuts; a complete EP that it
// cuts; a whole one.
pub const OFF: usize = 0;

pub const TAIL: usize = 1;

pub const BEGINS: usize = 2;

pub const WHOLE: usize = 3;

#[derive(Clone, Copy)]
pub struct Sight {
    pub sort: usize,
    pub from: usize,
    pub size: usize,
    pub content: usize,
    pub flips: usize,
}

// How a track sets about a TP's ordinary bytes: OFF; all of them are taken; an EP begins at this place; a packet ends there.
pub const OVER: usize = 1;

pub const AT: usize = 2;

pub const PACKET: usize = 3;

#[derive(Clone, Copy)]
pub struct Onto {
    pub sort: usize,
    pub place: usize,
    pub content: usize,
    pub len: usize,
    pub track: Track,
}

// An LLEP that is a packet.
#[derive(Clone, Copy)]
pub struct Brief {
    pub found: bool,
    pub more: bool,
    pub content: usize,
    pub size: usize,
}

fn plain(sort: usize) -> Track
    ensures { (result.sort ≡ sort) × (result.flips ≡ 0) }
{
    Track {
        sort,
        number: 0,
        byte: 0,
        begun: 0,
        have: 0,
        word: 0,
        left: 0,
        len: 0,
        content: 0,
        flips: 0,
    }
}

fn place_of(t: Track) -> Place
    ensures { result ≡ place_in t }
{
    Place {
        stamp: Stamp {
            number: t.number,
            byte: t.byte,
        },
        at: t.begun,
    }
}

// Of this sort; the other numbers stay.
pub fn turned(t: Track, sort: usize) -> Track
    ensures { result ≡ turned_of t sort }
{
    Track { sort, ..t }
}

fn cut(t: Track, began: Place, have: usize, word: u64) -> Track
    ensures { (lane_in result ≡ L.Cut began have word) × (result.flips ≡ t.flips) × (result.sort ≡ 2) }
{
    Track {
        sort: CUT,
        number: began.stamp.number,
        byte: began.stamp.byte,
        begun: began.at,
        have,
        word,
        ..t
    }
}

fn busy(t: Track, began: Place, left: usize, len: usize, content: usize, flips: usize) -> Track
    ensures { (lane_in result ≡ L.Busy began left len content flips) × (result.flips ≡ flips) × (result.sort ≡ 3) }
{
    Track {
        sort: BUSY,
        number: began.stamp.number,
        byte: began.stamp.byte,
        begun: began.at,
        left,
        len,
        content,
        flips,
        ..t
    }
}

// With nothing kept.
fn unkept(phase: Phase, began: Place) -> Track
    requires { Settled phase }
    ensures { UnkeptAs result (walk_at 0 phase began None) }
{
    match phase {
        Phase::Lost => plain(LOST),
        Phase::Head { have, word } => {
            if have == 0 {
                return plain(IDLE);
            }
            cut(plain(CUT), began, have, word)
        }
        Phase::Judged(_) | Phase::Body { .. } => plain(NONE),
    }
}

// With so many data of a complete EP kept. They are its own.
fn kept_of(phase: Phase, began: Place, len: usize, cap: usize) -> Track
    ensures { KeptAs result phase began len cap }
{
    let Phase::Body { header, left } = phase else {
        return plain(NONE);
    };
    if !stride::fits(header, cap) {
        return plain(NONE);
    }
    let content = header.content as usize;
    let flips = header.flips as usize;
    busy(plain(BUSY), began, left, len, content, flips)
}

// The track of a receiver before a TP, where nothing is kept, or data of a complete EP.
pub fn of(r: Receiver) -> Track
    requires { Able r × Placed r }
    ensures { TracksAs result r }
{
    let Stage::Fresh = r.stage else {
        return plain(NONE);
    };
    let w = r.walk;
    if w.at != 0 {
        return plain(NONE);
    }
    match w.kept {
        None => unkept(w.phase, w.began),
        Some(kept) => kept_of(w.phase, w.began, kept.len, r.limit),
    }
}

fn lane_of(t: Track, cap: usize) -> Lane
    requires { Kempt cap t }
    ensures { result ≡ lane_in t }
{
    let began = place_of(t);
    if t.sort == LOST {
        return Lane::Lost;
    }
    if t.sort == IDLE {
        return Lane::Idle;
    }
    if t.sort == CUT {
        return Lane::Cut {
            began,
            have: t.have,
            word: t.word,
        };
    }
    Lane::Busy {
        began,
        left: t.left,
        len: t.len,
        content: (t.content % 256) as u8,
        flips: (t.flips % 256) as u8,
    }
}

// The receiver of r's settings in a track, so many TPs counted.
pub fn back(r: Receiver, count: u64, t: Track, stage: Stage, at: usize) -> Receiver
    requires { Kempt r.limit t }
    ensures { result ≡ in_lane r count (lane_in t) stage at }
{
    lane::in_lane(r, count, lane_of(t, r.limit), stage, at)
}

fn seen(sort: usize, from: usize, h: Header) -> Sight
    ensures { (result ≡ sight_of sort from h) × (result.flips < 256) }
{
    Sight {
        sort,
        from,
        size: h.size,
        content: h.content as usize,
        flips: h.flips as usize,
    }
}

fn unseen(sort: usize, from: usize) -> Sight
    ensures { (result.sort ≡ sort) × (result.from ≡ from) × (result.flips ≡ 0) }
{
    Sight {
        sort,
        from,
        size: 0,
        content: 0,
        flips: 0,
    }
}

// What stands ahead of `start`, behind fill.
pub fn ahead(start: usize, tp: &[u8], most: usize) -> Sight
    requires { start ≤ length tp.now }
    ensures { Seen result start tp.now most }
{
    let from = stride::past_fill(tp, start);
    let rest = tp.len() - from;
    if rest < 6 {
        return unseen(TAIL, from);
    }
    let Some(h) = stride::read_at(tp, from) else {
        return unseen(OFF, from);
    };
    if !stride::fits(h, most) {
        return unseen(OFF, from);
    }
    if rest - 6 < h.size {
        return seen(BEGINS, from, h);
    }
    seen(WHOLE, from, h)
}

// The track behind a TP at whose end that stands, TAIL or BEGINS; data go to the room.
pub fn behind(t: Track, a: Sight, stamp: Stamp, tp: &[u8], room: &mut [u8]) -> Track
    requires flips_bound { (t.flips < 256) × (a.flips < 256) × (length tp.now ≤ 131072) }
    requires fact { ((a.sort ≡ 1) × (a.from ≤ length tp.now) × (length tp.now - a.from < 6)) ⊎ ((a.sort ≡ 2) × (a.from + 6 ≤ length tp.now) × (length tp.now - (a.from + 6) < a.size) × (a.size ≤ length room.old)) }
    ensures { BehindAs result a stamp tp.now room.old room.new }
{
    let from = a.from;
    let began = stamps::of(stamp, from);
    if a.sort == TAIL {
        let rest = tp.len() - from;
        if rest == 0 {
            return turned(t, IDLE);
        }
        return cut(t, began, rest, walk::gather(tp, from, rest, 0, 0));
    }
    let start = from + 6;
    let n = tp.len() - start;
    queue::copy_at(room, 0, &tp[start..]);
    busy(t, began, a.size - n, n, a.content, a.flips)
}

fn out_with(sort: usize, place: usize, track: Track) -> Onto
    ensures { result ≡ record { sort = sort; place = place; content = 0; len = 0; track = track } }
{
    Onto {
        sort,
        place,
        content: 0,
        len: 0,
        track,
    }
}

// Data that are kept are read on.
fn from_busy(t: Track, offset: usize, here: usize, tp: &[u8], room: &mut [u8]) -> Onto
    requires { Kempt (length room.old) t × (t.sort ≡ 3) × (offset < 2048) × (here ≤ length tp.now) × (length tp.now ≤ 2051) }
    ensures { SetsOut result t offset here tp.now room.old room.new }
{
    let rest = tp.len() - here;
    let left = t.left;
    let len = t.len;
    if left < rest {
        let end = here + left;
        if offset + 4 != end {
            return out_with(OFF, 0, t);
        }
        queue::copy_at(room, len, &tp[here..end]);
        return Onto {
            sort: PACKET,
            place: end,
            content: t.content,
            len: len + left,
            track: t,
        };
    }
    if offset != 2047 {
        return out_with(OFF, 0, t);
    }
    if left == rest {
        return out_with(OFF, 0, t);
    }
    queue::copy_at(room, len, &tp[here..]);
    let began = place_of(t);
    out_with(
        OVER,
        0,
        busy(t, began, left - rest, len + rest, t.content, t.flips),
    )
}

// The header that is cut, whole, if data follow it.
fn head(t: Track, here: usize, tp: &[u8]) -> Option<Header>
    requires { (1 ≤ t.have) × (t.have ≤ 5) × (t.word < 256 ^ t.have) × (here ≤ length tp.now) }
    ensures { result ≡ cond (leb (length tp.now - here) (6 - t.have)) None (header_in (number t.word (take (6 - t.have) (drop here tp.now)))) }
{
    let have = t.have;
    let missing = 6 - have;
    if tp.len() - here <= missing {
        return None;
    }
    wire::read_header(walk::gather(tp, here, missing, have, t.word))
}

// A cut header is read on.
fn from_cut(t: Track, offset: usize, here: usize, tp: &[u8], room: &mut [u8]) -> Onto
    requires { Kempt (length room.old) t × (t.sort ≡ 2) × (offset < 2048) × (here ≤ length tp.now) × (length tp.now ≤ 2051) }
    ensures { SetsOut result t offset here tp.now room.old room.new }
{
    let Some(h) = head(t, here, tp) else {
        return out_with(OFF, 0, t);
    };
    let start = here + 6 - t.have;
    let rest = tp.len() - start;
    let n = h.size;
    if n < rest {
        let end = start + n;
        if offset + 4 != end {
            return out_with(OFF, 0, t);
        }
        if h.content == 0 {
            return out_with(AT, end, t);
        }
        if !stride::fits(h, room.len()) {
            return out_with(OFF, 0, t);
        }
        queue::copy_at(room, 0, &tp[start..end]);
        return Onto {
            sort: PACKET,
            place: end,
            content: h.content as usize,
            len: n,
            track: t,
        };
    }
    if offset != 2047 {
        return out_with(OFF, 0, t);
    }
    if n == rest {
        return out_with(OFF, 0, t);
    }
    if !stride::fits(h, room.len()) {
        return out_with(OFF, 0, t);
    }
    queue::copy_at(room, 0, &tp[start..]);
    let began = place_of(t);
    let content = h.content as usize;
    let flips = h.flips as usize;
    out_with(OVER, 0, busy(t, began, n - rest, rest, content, flips))
}

// Sets about a TP's ordinary bytes, from `here` on. In a TP of more than 2051 bytes offset 2047, by which no EP begins, would be a place;
// at the payload's end none begins.
pub fn set_out(t: Track, offset: usize, here: usize, tp: &[u8], room: &mut [u8]) -> Onto
    requires { Kempt (length room.old) t × (t.sort ≤ 3) × (offset < 2048) × (4 ≤ here) × (here ≤ length tp.now) × (length tp.now ≤ 131072) }
    ensures { SetsOut result t offset here tp.now room.old room.new }
{
    if 2051 < tp.len() {
        return out_with(OFF, 0, t);
    }
    if t.sort == IDLE {
        if offset + 4 != here {
            return out_with(OFF, 0, t);
        }
        if here == tp.len() {
            return out_with(OFF, 0, t);
        }
        return out_with(AT, here, t);
    }
    if t.sort == LOST {
        let place = offset + 4;
        if tp.len() <= place {
            return out_with(OFF, 0, t);
        }
        if place < here {
            return out_with(OFF, 0, t);
        }
        return out_with(AT, place, t);
    }
    if t.sort == BUSY {
        return from_busy(t, offset, here, tp, room);
    }
    from_cut(t, offset, here, tp, room)
}

fn llep_of(found: bool, more: bool, h: Header) -> Brief
    ensures { (result.found ≡ found) × (result.more ≡ more) × (result.content ≡ h.content) × (result.size ≡ h.size) }
{
    Brief {
        found,
        more,
        content: h.content as usize,
        size: h.size,
    }
}

fn no_brief() -> Brief
    ensures { result.found ≡ false }
{
    Brief {
        found: false,
        more: false,
        content: 0,
        size: 0,
    }
}

// The LLEP at `at`, if it is a packet.
pub fn llep_at(tp: &[u8], at: usize) -> Brief
    requires { at ≤ length tp.now }
    ensures { BriefAs result.found result tp.now at }
{
    if tp.len() - at < 7 {
        return no_brief();
    }
    let Some(h) = stride::read_at(tp, at) else {
        return no_brief();
    };
    if tp.len() - at - 7 < h.size {
        return no_brief();
    }
    if !stride::fits(h, 65535) {
        return no_brief();
    }
    let last = at + 6 + h.size;
    let b = tp[last];
    if b == 0 {
        return llep_of(true, false, h);
    }
    if b == 255 {
        return llep_of(true, true, h);
    }
    match golay::end_of(b) {
        End::Zeros => llep_of(true, false, h),
        End::Ones => llep_of(true, true, h),
        End::Neither => no_brief(),
    }
}

// Out of step, what a TP comes to in which no EP begins: 1 for nothing, or its notice; 0 where it is to be read. The code word of 2047 leaves at
// once.
pub fn dropped(r: Receiver, tp: &[u8]) -> usize
    requires { Able r }
    ensures { DroppedAs result r tp.now }
{
    if tp.len() != r.size {
        return 0;
    }
    if tp[0] as usize != 16 * r.stream as usize {
        return 0;
    }
    let w = entry::tp_word(tp);
    if w == wire::NO_START {
        return 1;
    }
    let Some(TpWord { low, offset }) = wire::read_tp_word(w) else {
        return 9;
    };
    if low {
        if low::item(tp, 4).is_none() {
            return 11;
        }
        return 0;
    }
    if offset == 2047 {
        return 1;
    }
    if tp.len() <= offset + 4 {
        return 10;
    }
    0
}

// Between two EPs, whether one fill EP takes all of a TP.
pub fn is_fill(r: Receiver, tp: &[u8]) -> bool
    requires { Able r }
    ensures { FilledIf result r tp.now }
{
    if tp.len() != r.size {
        return false;
    }
    if tp[0] as usize != 16 * r.stream as usize {
        return false;
    }
    if over::six(tp) != 0 {
        return false;
    }
    if 4095 < tp.len() - 10 {
        return false;
    }
    digits::from_three(tp[7], tp[8], tp[9]) == golay::encode((tp.len() - 10) as u16)
}
