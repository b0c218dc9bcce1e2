// A call on a receiver's words in a series of intact fragments: where its first EP stands between two EPs, and before a TP in its data. Data go
// to the room as far as nothing is to be judged; what is left then is the same call from there, by value.
ghost use Rattle.std.specs.Prelude.{◌≡◌, true, ◌≤◌, length, get_or};
ghost use Rattle.receiver.specs.Words.{fitb, receiver_in};
ghost use Rattle.receiver.specs.InSeries.{FirstAt, LaterAt, RunsAs, Runs, LentBy, ChainAs, Leaves, SeriesAs};

use crate::swift::Swift;
use crate::walk::{Kept, Phase, Walk};
use crate::{About, Find, Place, Receiver, Stage, stamps, stride, swift, words};
use wire::Header;

// What a series comes to: something to be judged stands at that place; the TP ends between two EPs; or in data of an EP that began there, of
// which so many are left; or the packet is whole. So many of its bytes are in the room.
#[derive(Clone, Copy)]
pub enum Course {
    Stops {
        at: usize,
        len: usize,
    },
    Ends {
        len: usize,
    },
    Cut {
        header: Header,
        from: usize,
        left: usize,
        len: usize,
    },
    Whole {
        len: usize,
        end: usize,
    },
}

// A packet of which so many bytes are in the room; at that place its next EP is looked for, if of the EP that began at `from` nothing is left.
#[derive(Clone, Copy)]
pub struct Chain {
    at: usize,
    content: u8,
    repaired: u64,
    first: Place,
    len: usize,
    count: u64,
    header: Header,
    from: usize,
    left: usize,
}

// The first EP of a series at `at`, of at most so many data. Its first byte ends in the bits 01.
fn first_at(tp: &[u8], at: usize, most: usize) -> Option<Header>
    requires { at ≤ length tp.now }
    ensures { FirstAt tp.now at most result }
{
    if tp.len() <= at {
        return None;
    }
    if tp[at] % 4 != 1 {
        return None;
    }
    let h = stride::header_at(tp, at)?;
    if h.fragment != 1 {
        return None;
    }
    if h.content < 1 {
        return None;
    }
    if 6 < h.content {
        return None;
    }
    if most < h.size {
        return None;
    }
    Some(h)
}

// The last EP of this content at `at`, or a middle that the TP's end cuts, of at most so many data.
fn later_at(tp: &[u8], at: usize, content: u8, most: usize) -> Option<Header>
    requires { (at ≤ length tp.now) × (1 ≤ content) }
    ensures { LaterAt tp.now at content most result }
{
    let h = stride::header_at(tp, at)?;
    if h.content != content {
        return None;
    }
    if h.fragment < 2 {
        return None;
    }
    if most < h.size {
        return None;
    }
    if h.fragment == 2 {
        if tp.len() - (at + 6) < h.size {
            return Some(h);
        }
        return None;
    }
    Some(h)
}

// Between two EPs of a series, of which so many bytes are in the room.
fn run(tp: &[u8], start: usize, content: u8, first: usize, room: &mut [u8]) -> Course
    requires { (start ≤ length tp.now) × (first ≤ length room.old) × (1 ≤ content) }
    ensures { RunsAs result tp.now start content first room.old room.new }
{
    let joined = stride::past_middles(tp, start, content, first, room);
    let at = joined.at;
    let len = joined.len;
    if at == tp.len() {
        return Course::Ends { len };
    }
    let Some(h) = later_at(tp, at, content, room.len() - len) else {
        return Course::Stops { at, len };
    };
    let data = at + 6;
    let n = h.size.min(tp.len() - data);
    let end = data + n;
    queue::copy_at(room, len, &tp[data..end]);
    if n < h.size {
        return Course::Cut {
            header: h,
            from: at,
            left: h.size - n,
            len: len + n,
        };
    }
    Course::Whole { len: len + n, end }
}

// Where a series begins, among ordinary bytes between two EPs.
fn opens(w: &[u64; 23], tp: &[u8], room: &mut [u8]) -> Option<Chain>
    requires { (fitb w.now ≡ true) × LentBy w.now tp.now room.old × (get_or w.now 16 0 ≡ 0) }
    ensures { ChainAs result (receiver_in w.now) tp.now room.old room.new }
{
    if w[5] != 3 {
        return None;
    }
    if w[7] != 1 {
        return None;
    }
    if w[8] != 0 {
        return None;
    }
    let start = w[4] as usize;
    if tp.len() < start {
        return None;
    }
    let from = stride::past_fill(tp, start);
    let h = first_at(tp, from, room.len())?;
    let count = w[3];
    let data = from + 6;
    let n = h.size.min(tp.len() - data);
    let at = data + n;
    queue::copy_at(room, 0, &tp[data..at]);
    Some(Chain {
        at,
        content: h.content,
        repaired: h.flips as u64,
        first: stamps::of(stamps::own(count), from),
        len: n,
        count,
        header: h,
        from,
        left: h.size - n,
    })
}

// Before a TP without low-latency part in data of a first or a middle EP, which end in it.
fn goes_on(w: &[u64; 23], tp: &[u8], room: &mut [u8]) -> Option<Chain>
    requires { LentBy w.now tp.now room.old }
    ensures { ChainAs result (receiver_in w.now) tp.now room.old room.new }
{
    let r = words::receiver_in(w);
    let Stage::Fresh = r.stage else {
        return None;
    };
    let Phase::Body { header, left } = r.walk.phase else {
        return None;
    };
    let kept = r.walk.kept?;
    if header.fragment < 1 {
        return None;
    }
    if 2 < header.fragment {
        return None;
    }
    if kept.content < 1 {
        return None;
    }
    if 0xFFFF_FFFF < kept.repaired {
        return None;
    }
    let n = swift::begin(r.stream, tp)?;
    if n != left {
        return None;
    }
    let at = 4 + n;
    queue::copy_at(room, kept.len, &tp[4..at]);
    Some(Chain {
        at,
        content: kept.content,
        repaired: kept.repaired,
        first: kept.began,
        len: kept.len + n,
        count: stamps::counted(r.count),
        header,
        from: 0,
        left: 0,
    })
}

fn chain_of(w: &[u64; 23], tp: &[u8], room: &mut [u8]) -> Option<Chain>
    requires { (fitb w.now ≡ true) × LentBy w.now tp.now room.old }
    ensures { ChainAs result (receiver_in w.now) tp.now room.old room.new }
{
    if w[16] == 0 {
        return opens(w, tp, room);
    }
    if swift::is_busy(w) {
        return goes_on(w, tp, room);
    }
    None
}

fn course_of(c: Chain, tp: &[u8], room: &mut [u8]) -> Course
    requires { (c.at ≤ length tp.now) × (c.len ≤ length room.old) × (1 ≤ c.content) }
    ensures { Runs result tp.now c.at c.content c.len c.header c.from c.left room.old room.new }
{
    if 0 < c.left {
        return Course::Cut {
            header: c.header,
            from: c.from,
            left: c.left,
            len: c.len,
        };
    }
    run(tp, c.at, c.content, c.len, room)
}

// Behind what a series comes to.
fn behind(w: &mut [u64; 23], r: Receiver, c: Chain, course: Course) -> Option<Swift>
    ensures { Leaves result course r c.count c.content c.repaired c.first w.new }
{
    let content = c.content;
    let repaired = c.repaired;
    let first = c.first;
    let count = c.count;
    match course {
        Course::Stops { at, len } => {
            let kept = Some(Kept {
                content,
                repaired,
                began: first,
                len,
            });
            let phase = Phase::Head { have: 0, word: 0 };
            let walk = Walk {
                at,
                phase,
                began: first,
                kept,
            };
            swift::put(w, r, count, Stage::Plain, walk);
            None
        }
        Course::Ends { len } => {
            let kept = Some(Kept {
                content,
                repaired,
                began: first,
                len,
            });
            let phase = Phase::Head { have: 0, word: 0 };
            let walk = Walk {
                at: 0,
                phase,
                began: first,
                kept,
            };
            swift::put(w, r, count, Stage::Fresh, walk);
            swift::nothing(count)
        }
        Course::Cut {
            header,
            from,
            left,
            len,
        } => {
            let kept = Some(Kept {
                content,
                repaired,
                began: first,
                len,
            });
            let walk = Walk {
                at: 0,
                phase: Phase::Body { header, left },
                began: stamps::of(stamps::own(count), from),
                kept,
            };
            swift::put(w, r, count, Stage::Fresh, walk);
            swift::nothing(count)
        }
        Course::Whole { len, end } => {
            swift::put(w, r, count, Stage::Plain, swift::between(end));
            let find = Find::Ordinary { content, len };
            let about = About {
                repaired,
                at: first,
            };
            Some(Swift { find, about })
        }
    }
}

// The next find of the TP, or the same call from further on.
pub fn next(w: &mut [u64; 23], tp: &[u8], room: &mut [u8]) -> Option<Swift>
    requires { fitb w.old ≡ true }
    ensures { SeriesAs result (receiver_in w.old) tp.now room.old w.new room.new }
{
    if room.len() as u64 != w[2] {
        return None;
    }
    if tp.len() as u64 != w[0] {
        return None;
    }
    let chain = chain_of(w, tp, room)?;
    let course = course_of(chain, tp, room);
    let r = words::receiver_in(w);
    behind(w, r, chain, course)
}
