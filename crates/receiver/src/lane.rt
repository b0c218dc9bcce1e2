// The lanes of a receiver: the common ways through a TP, for loops over TPs that carry no more of a receiver than these need. What
// no lane covers is left to a call by value.
ghost use Rattle.std.specs.Prelude.{◌≡◌, true, ◌+◌, ◌≤◌, ◌<◌, ◌^◌, length};
ghost use Rattle.receiver.specs.declared.lane.Lane.TheVariants as L;
ghost use Rattle.receiver.specs.Lows.{lows_of};
ghost use Rattle.receiver.specs.State.{Able, Fine, Settled, kept_by};
ghost use Rattle.receiver.specs.Turns.{walk_at};
ghost use Rattle.receiver.specs.Lanes.{Tidy, LanedAs, walk_in, in_lane, top_in, AheadAs, OutAs};
ghost use Rattle.receiver.specs.InLanes.{StandsAs, FitsIf, EntersAs, SetAs};

pub use crate::entry::Top;
pub use crate::low::Lows;
pub use crate::stamps::{counted, of as place_of};
use crate::walk::{Kept, Phase, Walk};
use crate::{Place, Receiver, Stage, Stamp, entry, low, outset, stamps, stride, walk};
use wire::Header;

// What a receiver stands in before a TP: in none; out of step; between two EPs; in a header, of which these bytes are read; in
// the data of a complete EP, of which so many are left, and so many in the room.
#[derive(Clone, Copy)]
pub enum Lane {
    Other,
    Lost,
    Idle,
    Cut {
        began: Place,
        have: usize,
        word: u64,
    },
    Busy {
        began: Place,
        left: usize,
        len: usize,
        content: u8,
        flips: u8,
    },
}

// What reading comes to: something that is left to a call; a notice that puts out of step, and nothing more; the TP's end; an EP
// that begins there; a packet, and where the next EP begins.
#[derive(Clone, Copy)]
pub enum Met {
    Other,
    Drops(u8),
    Ends(Lane),
    Reads(usize),
    Gives {
        content: u8,
        repaired: u64,
        began: Place,
        len: usize,
        end: usize,
    },
}

// With nothing kept.
fn unkept(phase: Phase, began: Place, cap: usize) -> Lane
    requires { Settled phase }
    ensures { StandsAs cap result (walk_at 0 phase began None) }
{
    match phase {
        Phase::Lost => Lane::Lost,
        Phase::Head { have, word } => {
            if have == 0 {
                return Lane::Idle;
            }
            Lane::Cut { began, have, word }
        }
        Phase::Judged(_) | Phase::Body { .. } => Lane::Other,
    }
}

// With so many bytes kept of a packet that began there: in the data of a complete EP.
fn kept_of(
    phase: Phase,
    began: Place,
    content: u8,
    repaired: u64,
    first: Place,
    len: usize,
    cap: usize,
) -> Lane
    requires { Settled phase × Fine cap phase (kept_by content repaired first len) }
    ensures { StandsAs cap result (walk_at 0 phase began (kept_by content repaired first len)) }
{
    let Phase::Body { header, left } = phase else {
        return Lane::Other;
    };
    if !stride::fits(header, cap) {
        return Lane::Other;
    }
    let flips = header.flips;
    if header.content != content {
        return Lane::Other;
    }
    if flips as u64 != repaired {
        return Lane::Other;
    }
    if header.size != len + left {
        return Lane::Other;
    }
    if began != first {
        return Lane::Other;
    }
    Lane::Busy {
        began,
        left,
        len,
        content,
        flips,
    }
}

// The lane of a receiver before a TP.
pub fn lane_of(r: Receiver) -> Lane
    requires { Able r }
    ensures { LanedAs result r }
{
    let Stage::Fresh = r.stage else {
        return Lane::Other;
    };
    let w = r.walk;
    if w.at != 0 {
        return Lane::Other;
    }
    match w.kept {
        None => unkept(w.phase, w.began, r.limit),
        Some(k) => kept_of(
            w.phase, w.began, k.content, k.repaired, k.began, k.len, r.limit,
        ),
    }
}

// How many TPs a receiver has counted.
pub fn count_of(r: Receiver) -> u64
    ensures { result ≡ r.count }
{
    r.count
}

// How long a room a receiver is lent.
pub fn room_of(r: Receiver) -> usize
    ensures { result ≡ r.limit }
{
    r.limit
}

fn walk_in(was: Place, lane: Lane, at: usize, cap: usize) -> Walk
    requires { Tidy cap lane }
    ensures { result ≡ walk_in was lane at }
{
    match lane {
        Lane::Other | Lane::Lost => Walk {
            at,
            phase: Phase::Lost,
            began: was,
            kept: None,
        },
        Lane::Idle => Walk {
            at,
            phase: Phase::Head { have: 0, word: 0 },
            began: was,
            kept: None,
        },
        Lane::Cut { began, have, word } => Walk {
            at,
            phase: Phase::Head { have, word },
            began,
            kept: None,
        },
        Lane::Busy {
            began,
            left,
            len,
            content,
            flips,
        } => {
            let header = Header {
                content,
                fragment: 0,
                size: len + left,
                flips,
            };
            let kept = Some(Kept {
                content,
                repaired: flips as u64,
                began,
                len,
            });
            Walk {
                at,
                phase: Phase::Body { header, left },
                began,
                kept,
            }
        }
    }
}

// The receiver of r's settings in a lane, so many TPs counted.
pub fn in_lane(r: Receiver, count: u64, lane: Lane, stage: Stage, at: usize) -> Receiver
    requires { Tidy r.limit lane }
    ensures { result ≡ in_lane r count lane stage at }
{
    Receiver {
        count,
        stage,
        walk: walk_in(r.walk.began, lane, at, r.limit),
        ..r
    }
}

// What a TP's header says: of another stream, or the TP of another length; not to be read; or its flag and its offset.
pub fn top(r: Receiver, tp: &[u8]) -> Top
    requires { Able r }
    ensures { result ≡ top_in r tp.now }
{
    if tp.len() != r.size {
        return Top::Elsewhere;
    }
    entry::read_top(r.stream, tp)
}

// The low-latency part from `at` on, up to its end or the next find.
pub fn lows(tp: &[u8], at: usize) -> Lows
    ensures { result ≡ lows_of tp.now at }
{
    if tp.len() < at {
        return Lows::Broken(at);
    }
    low::walk(tp, at)
}

// The data of a complete EP that began there, up to their end or the TP's, into the room.
fn entered(h: Header, began: Place, from: usize, tp: &[u8], room: &mut [u8]) -> Met
    requires { (from ≤ length tp.now) × FitsIf true h (length room.old) }
    ensures { EntersAs result h began from tp.now room.old room.new }
{
    let size = h.size;
    let content = h.content;
    let flips = h.flips;
    let n = size.min(tp.len() - from);
    let end = from + n;
    queue::copy_at(room, 0, &tp[from..end]);
    if n < size {
        return Met::Ends(Lane::Busy {
            began,
            left: size - n,
            len: n,
            content,
            flips,
        });
    }
    Met::Gives {
        content,
        repaired: flips as u64,
        began,
        len: size,
        end,
    }
}

// Between two EPs from `start` on, with nothing kept: past fill, and what stands behind it.
pub fn look_ahead(start: usize, stamp: Stamp, tp: &[u8], room: &mut [u8]) -> Met
    ensures { AheadAs result start stamp tp.now room.old room.new }
{
    if tp.len() < start {
        return Met::Other;
    }
    let from = stride::past_fill(tp, start);
    let rest = tp.len() - from;
    if rest < 6 {
        if rest == 0 {
            return Met::Ends(Lane::Idle);
        }
        return Met::Ends(Lane::Cut {
            began: stamps::of(stamp, from),
            have: rest,
            word: walk::gather(tp, from, rest, 0, 0),
        });
    }
    let Some(h) = stride::read_at(tp, from) else {
        return Met::Drops(12);
    };
    if stride::fits(h, room.len()) {
        return entered(h, stamps::of(stamp, from), from + 6, tp, room);
    }
    Met::Other
}

// A cut header is read on.
fn from_cut(
    began: Place,
    have: usize,
    word: u64,
    n: usize,
    at: usize,
    tp: &[u8],
    room: &mut [u8],
) -> Met
    requires { (at + n ≤ length tp.now) × (1 ≤ have) × (have ≤ 5) × (word < 256 ^ have) }
    ensures { SetAs result (L.Cut began have word) n at tp.now room.old room.new }
{
    let rest = tp.len() - at;
    let missing = 6 - have;
    if rest < missing {
        if n != rest {
            return Met::Other;
        }
        return Met::Ends(Lane::Cut {
            began,
            have: have + rest,
            word: walk::gather(tp, at, rest, have, word),
        });
    }
    let Some(h) = wire::read_header(walk::gather(tp, at, missing, have, word)) else {
        return Met::Other;
    };
    if missing + h.size.min(rest - missing) != n {
        return Met::Other;
    }
    if h.content == 0 {
        if rest - missing < h.size {
            return Met::Other;
        }
        return Met::Reads(at + missing + h.size);
    }
    if stride::fits(h, room.len()) {
        return entered(h, began, at + missing, tp, room);
    }
    Met::Other
}

// Data that are kept are read on.
fn from_busy(
    began: Place,
    left: usize,
    len: usize,
    content: u8,
    flips: u8,
    n: usize,
    at: usize,
    tp: &[u8],
    room: &mut [u8],
) -> Met
    requires { (at + n ≤ length tp.now) × Tidy (length room.old) (L.Busy began left len content flips) }
    ensures { SetAs result (L.Busy began left len content flips) n at tp.now room.old room.new }
{
    let rest = tp.len() - at;
    if left.min(rest) != n {
        return Met::Other;
    }
    let end = at + n;
    queue::copy_at(room, len, &tp[at..end]);
    if rest < left {
        return Met::Ends(Lane::Busy {
            began,
            left: left - n,
            len: len + n,
            content,
            flips,
        });
    }
    Met::Gives {
        content,
        repaired: flips as u64,
        began,
        len: len + n,
        end,
    }
}

// In a lane, with n bytes before the first EP that begins.
fn from_lane(lane: Lane, n: usize, at: usize, tp: &[u8], room: &mut [u8]) -> Met
    requires { (at + n ≤ length tp.now) × Tidy (length room.old) lane }
    ensures { SetAs result lane n at tp.now room.old room.new }
{
    match lane {
        Lane::Other => Met::Other,
        Lane::Lost => {
            let start = at + n;
            if start < tp.len() {
                return Met::Reads(start);
            }
            Met::Ends(Lane::Lost)
        }
        Lane::Idle => {
            if n != 0 {
                return Met::Other;
            }
            Met::Reads(at)
        }
        Lane::Cut { began, have, word } => from_cut(began, have, word, n, at, tp, room),
        Lane::Busy {
            began,
            left,
            len,
            content,
            flips,
        } => from_busy(began, left, len, content, flips, n, at, tp, room),
    }
}

// Behind the low-latency part, which ends at `at`: the ordinary bytes are set about.
pub fn set_out(lane: Lane, offset: usize, at: usize, tp: &[u8], room: &mut [u8]) -> Met
    requires { Tidy (length room.old) lane }
    ensures { OutAs result lane offset at tp.now room.old room.new }
{
    if 2047 < offset {
        return Met::Other;
    }
    if tp.len() < at {
        return Met::Other;
    }
    match outset::place_of(offset, at, tp.len()) {
        Err(number) => Met::Drops(number),
        Ok(n) => from_lane(lane, n, at, tp, room),
    }
}
