// A call on a receiver's words, where it stands in a lane with nothing kept, or before a TP in data that are kept: only the words
// that it needs are read. Any other receiver, and whatever is to be judged, is left as it was to a call by value.
ghost use Rattle.std.specs.Prelude.{◌≡◌, true, ◌≤◌, ◌<◌, length, get_or, IfSome};
ghost use Rattle.receiver.specs.declared.Find.TheVariants as F;
ghost use Rattle.receiver.specs.Place.{own_of, start_of};
ghost use Rattle.receiver.specs.Pieces.{none_of, top_of};
ghost use Rattle.receiver.specs.Words.{Bytes, fitb, receiver_in, stage_words, words_of};
ghost use Rattle.receiver.specs.Lanes.{Tidy, in_lane};
ghost use Rattle.receiver.specs.InSwift.{Lent, Busy, Behind, hands_of, told, SwiftAs, made_of, between_at, Stands, LaneAs, count_by, first_spot, plain_spot, GoesAs, PartAs, LowPartAs, ToldAs, DueAs, OnAs, TidyMet, BehindMet};

use crate::entry::Top;
use crate::kind::Kind;
use crate::lane::{Lane, Lows, Met};
use crate::walk::{Kept, Phase, Walk};
use crate::{
    About, Find, Place, Receiver, Stage, Stamp, entry, kind, lane, outset, stages, stamps, words,
};
use wire::Header;

// Where a call goes on in a TP: it is left to a call by value; its header drops it; it is over, out of step; in the low-latency part; behind it;
// between two EPs.
#[derive(Clone, Copy)]
pub enum Spot {
    Other,
    Gone(u8),
    Over,
    Low { offset: usize, at: usize },
    Due { offset: usize, at: usize },
    Plain(usize),
}

// Before ordinary bytes: what the call gives, or where it goes on. Neither is a failure, as one side of a Result would be.
#[derive(Clone, Copy)]
pub enum Part {
    Told(Option<Swift>),
    On(Spot),
}

// The find of a call on words, and what it carries. A call that gives none is left to one by value.
#[derive(Clone, Copy)]
pub struct Swift {
    pub find: Find,
    pub about: About,
}

// How many bytes stand before the first EP that begins in a TP without low-latency part.
pub fn begin(stream: u8, tp: &[u8]) -> Option<usize>
    requires { 4 ≤ length tp.now }
    ensures { IfSome result (Behind stream tp.now) }
{
    let Top::Says { low, offset } = entry::read_top(stream, tp) else {
        return None;
    };
    if low {
        return None;
    }
    outset::place_of(offset, 4, tp.len()).ok()
}

// The words of a receiver of r's settings.
pub fn put(w: &mut [u64; 23], r: Receiver, count: u64, stage: Stage, walk: Walk)
    ensures w_after { w.new ≡ words_of (made_of r count stage walk) }
    ensures bytes { Bytes (made_of r count stage walk) }
{
    *w = words::words_of(Receiver {
        count,
        stage,
        walk,
        ..r
    });
}

// Between two EPs with nothing kept; where one began nobody looks.
pub fn between(at: usize) -> Walk
    ensures { result ≡ between_at at }
{
    Walk {
        at,
        phase: Phase::Head { have: 0, word: 0 },
        began: stamps::start(stamps::own(0)),
        kept: None,
    }
}

// None: the TP is done.
pub fn nothing(count: u64) -> Option<Swift>
    ensures { result ≡ told F.Nothing (none_of (start_of (own_of count))) }
{
    let at = stamps::start(stamps::own(count));
    let about = About { repaired: 0, at };
    let find = Find::Nothing;
    Some(Swift { find, about })
}

// Whether an EP's end hands out what is kept.
fn hands(h: Header) -> bool
    ensures { result ≡ hands_of h }
{
    match kind::kind_of(h) {
        Kind::Fill => false,
        Kind::Reserved => false,
        Kind::Complete => true,
        Kind::First => false,
        Kind::Middle => false,
        Kind::Last => true,
    }
}

// Before a TP, in data that are kept, of which so many are left.
fn busy_next(
    w: &mut [u64; 23],
    r: Receiver,
    header: Header,
    left: usize,
    held: Kept,
    tp: &[u8],
    room: &mut [u8],
) -> Option<Swift>
    requires { Lent r tp.now × Busy r header left held.content held.repaired held.began held.len × (length room.old ≡ r.limit) }
    ensures { SwiftAs result r w.old tp.now room.old w.new room.new }
{
    let n = begin(r.stream, tp)?;
    let rest = tp.len() - 4;
    if left.min(rest) != n {
        return None;
    }
    let count = stamps::counted(r.count);
    let first = held.began;
    let len = held.len;
    let end = 4 + n;
    if rest < left {
        queue::copy_at(room, len, &tp[4..end]);
        let kept = Some(Kept {
            len: len + rest,
            ..held
        });
        let phase = Phase::Body {
            header,
            left: left - rest,
        };
        let walk = Walk {
            at: 0,
            phase,
            kept,
            ..r.walk
        };
        put(w, r, count, Stage::Fresh, walk);
        return nothing(count);
    }
    if !hands(header) {
        return None;
    }
    queue::copy_at(room, len, &tp[4..end]);
    put(w, r, count, Stage::Plain, between(end));
    let find = Find::Ordinary {
        content: held.content,
        len: len + left,
    };
    let about = About {
        repaired: held.repaired,
        at: first,
    };
    Some(Swift { find, about })
}

fn busy(w: &mut [u64; 23], r: Receiver, tp: &[u8], room: &mut [u8]) -> Option<Swift>
    requires { Lent r tp.now × (length room.old ≡ r.limit) }
    ensures { SwiftAs result r w.old tp.now room.old w.new room.new }
{
    let Stage::Fresh = r.stage else {
        return None;
    };
    let Phase::Body { header, left } = r.walk.phase else {
        return None;
    };
    let held = r.walk.kept?;
    busy_next(w, r, header, left, held, tp, room)
}

// Before a TP in data, by the words; the compiler then reads no others.
pub fn is_busy(w: &[u64; 23]) -> bool {
    if w[7] != 3 {
        return false;
    }
    w[5] == 0
}

// The lane that words say, where nothing is kept.
fn lane_in(w: &[u64; 23]) -> Lane
    requires { fitb w.now ≡ true }
    ensures { LaneAs result (receiver_in w.now) }
{
    if w[16] != 0 {
        return Lane::Other;
    }
    if w[7] == 0 {
        return Lane::Lost;
    }
    if w[7] != 1 {
        return Lane::Other;
    }
    if w[8] == 0 {
        return Lane::Idle;
    }
    let stamp = Stamp {
        number: w[13],
        byte: w[14],
    };
    Lane::Cut {
        began: Place {
            stamp,
            at: w[15] as usize,
        },
        have: w[8] as usize,
        word: w[9],
    }
}

// Before a TP, by its header.
fn first_spot(stream: u8, tp: &[u8]) -> Spot
    requires { 4 ≤ length tp.now }
    ensures { result ≡ first_spot (top_of stream tp.now) }
{
    match entry::read_top(stream, tp) {
        Top::Elsewhere => Spot::Other,
        Top::Dropped(number) => Spot::Gone(number),
        Top::Says { low, offset } => {
            if low {
                return Spot::Low { offset, at: 4 };
            }
            Spot::Due { offset, at: 4 }
        }
    }
}

// Among ordinary bytes.
fn plain_spot(lane: Lane, at: usize, len: usize) -> Spot
    ensures { result ≡ plain_spot lane at len }
{
    match lane {
        Lane::Other => Spot::Other,
        Lane::Lost => {
            if at != len {
                return Spot::Other;
            }
            Spot::Over
        }
        Lane::Idle => Spot::Plain(at),
        Lane::Cut {
            began: _,
            have: _,
            word: _,
        } => Spot::Other,
        Lane::Busy {
            began: _,
            left: _,
            len: _,
            content: _,
            flips: _,
        } => Spot::Other,
    }
}

fn spot_of(w: &[u64; 23], lane: Lane, tp: &[u8]) -> Spot
    requires { (fitb w.now ≡ true) × Stands lane (receiver_in w.now) × (length tp.now ≡ (receiver_in w.now).size) }
    ensures { GoesAs result (receiver_in w.now) lane tp.now }
{
    let at = w[4] as usize;
    let offset = w[6] as usize;
    if w[5] == 0 {
        return first_spot(w[1] as u8, tp);
    }
    if w[5] == 1 {
        return Spot::Low { offset, at };
    }
    if w[5] == 2 {
        return Spot::Due { offset, at };
    }
    plain_spot(lane, at, tp.len())
}

// How many TPs are counted with this one.
fn count_in(w: &[u64; 23]) -> u64
    ensures { result ≡ count_by (receiver_in w.now) }
{
    if w[5] == 0 {
        return stamps::counted(w[3]);
    }
    w[3]
}

fn notice(number: u8, at: Place) -> Option<Swift>
    ensures { result ≡ told (F.Notice number) (none_of at) }
{
    let about = About { repaired: 0, at };
    let find = Find::Notice(number);
    Some(Swift { find, about })
}

// Sort and offset.
fn sort_of(stage: Stage) -> u64
    ensures { result ≡ get_or (stage_words stage) 0 0 }
{
    match stage {
        Stage::Fresh => 0,
        Stage::Low(_) => 1,
        Stage::Due(_) => 2,
        Stage::Plain => 3,
    }
}

fn offset_of(stage: Stage) -> u64
    ensures { result ≡ get_or (stage_words stage) 1 0 }
{
    match stage {
        Stage::Fresh => 0,
        Stage::Low(offset) => offset as u64,
        Stage::Due(offset) => offset as u64,
        Stage::Plain => 0,
    }
}

// The words of a lane of w's settings.
fn put_lane(w: &mut [u64; 23], count: u64, lane: Lane, stage: Stage, place: usize)
    requires { (fitb w.old ≡ true) × Tidy (receiver_in w.old).limit lane }
    ensures w_after { w.new ≡ words_of (in_lane (receiver_in w.old) count lane stage place) }
    ensures bytes { Bytes (in_lane (receiver_in w.old) count lane stage place) }
{
    let size = w[0];
    let stream = w[1];
    let limit = w[2];
    let s = sort_of(stage);
    let o = offset_of(stage);
    let at = place as u64;
    match lane {
        Lane::Other => *w = [
            size, stream, limit, count, at, s, o, 0, 0, 0, 0, 0, 0, 0, 0, 0, 0, 0, 0, 0, 0, 0, 0,
        ],
        Lane::Lost => *w = [
            size, stream, limit, count, at, s, o, 0, 0, 0, 0, 0, 0, 0, 0, 0, 0, 0, 0, 0, 0, 0, 0,
        ],
        Lane::Idle => *w = [
            size, stream, limit, count, at, s, o, 1, 0, 0, 0, 0, 0, 0, 0, 0, 0, 0, 0, 0, 0, 0, 0,
        ],
        Lane::Cut { began, have, word } => {
            let t = began.stamp;
            *w = [
                size,
                stream,
                limit,
                count,
                at,
                s,
                o,
                1,
                have as u64,
                word,
                0,
                0,
                0,
                t.number,
                t.byte,
                began.at as u64,
                0,
                0,
                0,
                0,
                0,
                0,
                0,
            ];
        }
        Lane::Busy {
            began,
            left,
            len,
            content,
            flips,
        } => {
            let t = began.stamp;
            let c = words::wide(content);
            let e = words::wide(flips);
            let n = len as u64;
            let i = began.at as u64;
            *w = [
                size,
                stream,
                limit,
                count,
                at,
                s,
                o,
                3,
                c,
                0,
                (len + left) as u64,
                e,
                left as u64,
                t.number,
                t.byte,
                i,
                1,
                c,
                e,
                n,
                t.number,
                t.byte,
                i,
            ];
        }
    }
}

// The next find of the low-latency part.
fn low_next(w: &mut [u64; 23], lane: Lane, offset: usize, at: usize, count: u64, tp: &[u8]) -> Part
    requires { (fitb w.old ≡ true) × Tidy (receiver_in w.old).limit lane × (length tp.now ≡ (receiver_in w.old).size) × (4 ≤ at) × (at ≤ length tp.now) × (offset < 2048) }
    ensures { LowPartAs result (receiver_in w.old) count lane offset at tp.now w.old w.new }
{
    let stamp = stamps::own(count);
    match lane::lows(tp, at) {
        Lows::Broken(i) => {
            put_lane(w, count, Lane::Lost, Stage::Plain, tp.len());
            Part::Told(notice(11, stamps::of(stamp, i)))
        }
        Lows::End(i) => Part::On(Spot::Due { offset, at: i }),
        Lows::Gives {
            find,
            repaired,
            from,
            more,
            end,
        } => {
            put_lane(w, count, lane, stages::low_stage(more, offset), end);
            let about = About {
                repaired,
                at: stamps::of(stamp, from),
            };
            Part::Told(Some(Swift { find, about }))
        }
    }
}

// Before ordinary bytes.
fn before(w: &mut [u64; 23], lane: Lane, count: u64, tp: &[u8]) -> Part
    requires { (fitb w.old ≡ true) × Stands lane (receiver_in w.old) × (length tp.now ≡ (receiver_in w.old).size) × (count ≡ count_by (receiver_in w.old)) }
    ensures { PartAs result (receiver_in w.old) count lane tp.now w.old w.new }
{
    let spot = spot_of(w, lane, tp);
    match spot {
        Spot::Other => Part::Told(None),
        Spot::Gone(number) => {
            put_lane(w, count, Lane::Lost, Stage::Fresh, 0);
            Part::Told(notice(number, stamps::start(stamps::own(count))))
        }
        Spot::Over => {
            put_lane(w, count, Lane::Lost, Stage::Fresh, 0);
            Part::Told(nothing(count))
        }
        Spot::Low { offset, at } => low_next(w, lane, offset, at, count, tp),
        Spot::Due { offset: _, at: _ } => Part::On(spot),
        Spot::Plain(_) => Part::On(spot),
    }
}

fn due(lane: Lane, spot: Spot, tp: &[u8], room: &mut [u8]) -> Met
    requires { Tidy (length room.old) lane }
    ensures { DueAs result spot lane tp.now room.old room.new }
{
    match spot {
        Spot::Other => Met::Other,
        Spot::Gone(_) => Met::Other,
        Spot::Over => Met::Other,
        Spot::Low { offset: _, at: _ } => Met::Other,
        Spot::Due { offset, at } => lane::set_out(lane, offset, at, tp, room),
        Spot::Plain(at) => Met::Reads(at),
    }
}

// What is met among ordinary bytes.
fn ahead(met: Met, count: u64, tp: &[u8], room: &mut [u8]) -> Met
    ensures { OnAs result met count tp.now room.old room.new }
{
    let Met::Reads(at) = met else {
        return met;
    };
    lane::look_ahead(at, stamps::own(count), tp, room)
}

// Behind what is met.
fn met_in(w: &mut [u64; 23], met: Met, count: u64, len: usize) -> Option<Swift>
    requires { (fitb w.old ≡ true) × TidyMet (receiver_in w.old).limit met }
    ensures { BehindMet result met (receiver_in w.old) count len w.old w.new }
{
    match met {
        Met::Other => None,
        Met::Drops(number) => {
            if number == 12 {
                return None;
            }
            put_lane(w, count, Lane::Lost, Stage::Plain, len);
            notice(number, stamps::start(stamps::own(count)))
        }
        Met::Ends(lane) => {
            put_lane(w, count, lane, Stage::Fresh, 0);
            nothing(count)
        }
        Met::Reads(_) => None,
        Met::Gives {
            content,
            repaired,
            began,
            len,
            end,
        } => {
            put_lane(w, count, Lane::Idle, Stage::Plain, end);
            let find = Find::Ordinary { content, len };
            let about = About {
                repaired,
                at: began,
            };
            Some(Swift { find, about })
        }
    }
}

// In a lane.
fn laned(w: &mut [u64; 23], lane: Lane, tp: &[u8], room: &mut [u8]) -> Option<Swift>
    requires { (fitb w.old ≡ true) × Stands lane (receiver_in w.old) × (length tp.now ≡ (receiver_in w.old).size) × (length room.old ≡ (receiver_in w.old).limit) }
    ensures { SwiftAs result (receiver_in w.old) w.old tp.now room.old w.new room.new }
{
    let count = count_in(w);
    match before(w, lane, count, tp) {
        Part::Told(told) => told,
        Part::On(spot) => {
            let first = due(lane, spot, tp, room);
            let met = ahead(first, count, tp, room);
            met_in(w, met, count, tp.len())
        }
    }
}

// The next find of the low-latency part, in which the words stand. The lane is asked for behind the walk, so that it isn't carried through it.
fn low_again(w: &mut [u64; 23], tp: &[u8]) -> Option<Swift>
    requires { (fitb w.old ≡ true) × (get_or w.old 5 0 ≡ 1) × (length tp.now ≡ (receiver_in w.old).size) }
    ensures { ToldAs result (receiver_in w.old) tp.now w.old w.new }
{
    let Lows::Gives {
        find,
        repaired,
        from,
        more,
        end,
    } = lane::lows(tp, w[4] as usize)
    else {
        return None;
    };
    let lane = lane_in(w);
    if let Lane::Other = lane {
        return None;
    }
    let count = w[3];
    let stage = stages::low_stage(more, w[6] as usize);
    put_lane(w, count, lane, stage, end);
    let about = About {
        repaired,
        at: stamps::of(stamps::own(count), from),
    };
    Some(Swift { find, about })
}

// The next find of the TP.
pub fn next(w: &mut [u64; 23], tp: &[u8], room: &mut [u8]) -> Option<Swift>
    requires { fitb w.old ≡ true }
    ensures { SwiftAs result (receiver_in w.old) w.old tp.now room.old w.new room.new }
{
    if room.len() as u64 != w[2] {
        return None;
    }
    if tp.len() as u64 != w[0] {
        return None;
    }
    if w[5] == 1 {
        if let Some(swift) = low_again(w, tp) {
            return Some(swift);
        }
    }
    let lane = lane_in(w);
    if let Lane::Other = lane {
        if is_busy(w) {
            return busy(w, words::receiver_in(w), tp, room);
        }
        return None;
    }
    laned(w, lane, tp, room)
}
