// The receiver: opened once, called for one find at a time, told of gaps; and the stretch that a find names.
#![tactic(auto)]

ghost use Rattle.std.specs.Prelude.{◌≡◌, ◌≤◌, length, take, drop};
ghost use Rattle.receiver.specs.State.{Able};
ghost use Rattle.receiver.specs.Call.{call_as, call_of, always, Gives, fresh_of, gap_of, pending_of, under_way, OpenedAs, data_of, lasts};
ghost use Rattle.receiver.specs.Turn.{told_goes_on, TurnedAs};

mod entry;
mod judge;
mod kind;
pub mod lane;
mod low;
mod outset;
pub mod over;
mod pieces;
mod series;
mod stages;
mod stamps;
mod stride;
mod swift;
pub mod track;
mod walk;
pub mod words;

use stages::{Course, Stamps};
use walk::{Phase, Walk};
use wire::Header;

// One call's answer. Document 01's number is 1 for Refused, and a notice's own, which the listing prints and the C interface gives out.
#[derive(Clone, Copy)]
pub enum Find {
    Nothing,
    Refused,
    Notice(u8),
    Low {
        content: u8,
        start: usize,
        len: usize,
    },
    Ordinary {
        content: u8,
        len: usize,
    },
}

// Where a TP stands: not begun; in its low-latency part; before its ordinary bytes; among them. The offset is kept.
#[derive(Clone, Copy)]
pub enum Stage {
    Fresh,
    Low(usize),
    Due(usize),
    Plain,
}

// By what a TP is known: its number, and the byte of a recording at which it stands, if that is told.
#[derive(Clone, Copy, PartialEq, Eq)]
pub struct Stamp {
    pub number: u64,
    pub byte: u64,
}

// A place of a TP's payload.
#[derive(Clone, Copy, PartialEq, Eq)]
pub struct Place {
    pub stamp: Stamp,
    pub at: usize,
}

// `count` is that of the TPs of its length and stream given since opening.
#[derive(Clone, Copy)]
pub struct Receiver {
    size: usize,
    stream: u8,
    limit: usize,
    count: u64,
    stage: Stage,
    walk: Walk,
}

// What the bytes of a piece are: passed over or dropped (also none at all); an LLEP with its end byte; a header, or an LLEP,
// beyond reading; a header's, that the TP's end cuts; a header's, now whole; data of an EP that is passed over; data that
// are kept, from this place of the room on.
#[derive(Clone, Copy)]
pub enum Role {
    Passed,
    Llep(Header),
    Broken,
    Cut,
    Whole(Header),
    Skipped,
    Kept(usize),
}

// A stretch of the TP's payload.
#[derive(Clone, Copy)]
pub struct Piece {
    pub from: usize,
    pub to: usize,
    pub role: Role,
}

// `told` is the find of the call that the piece ends, if it ends one.
#[derive(Clone, Copy)]
pub struct Turned {
    pub receiver: Receiver,
    pub piece: Piece,
    pub told: Option<Find>,
    pub about: About,
}

// What a find carries beside it: how many bits were repaired in the EP headers of a packet, and in its end byte if it is
// low-latency; 0 for any other find. And the place of its first EP byte, or of the EP that a notice names; else place 0.
#[derive(Clone, Copy)]
pub struct About {
    pub repaired: u64,
    pub at: Place,
}

#[derive(Clone, Copy)]
pub struct Step {
    pub receiver: Receiver,
    pub find: Find,
    pub about: About,
}

// Out of step, before a TP, so many counted.
fn fresh(size: usize, stream: u8, limit: usize, count: u64) -> Receiver
    requires { 16 ≤ size }
    ensures { (result ≡ fresh_of size stream limit count) × Able result }
{
    Receiver {
        size,
        stream,
        limit,
        count,
        stage: Stage::Fresh,
        walk: Walk {
            at: 0,
            phase: Phase::Lost,
            began: stamps::start(stamps::own(0)),
            kept: None,
        },
    }
}

// None: a setting or the room outside its limits.
pub fn open(tp: usize, stream: u8, room: &[u8]) -> Option<Receiver>
    ensures { OpenedAs tp stream (length room.now) result }
{
    if tp < 16 {
        return None;
    }
    if 2051 < tp {
        return None;
    }
    if 15 < stream {
        return None;
    }
    if 131072 < room.len() {
        return None;
    }
    Some(fresh(tp, stream, room.len(), 0))
}

// The next find of the TP, by these stamps.
fn call(r: Receiver, t: Stamps, tp: &[u8], room: &mut [u8]) -> Step
    requires { Able r }
    ensures { Gives (call_as r t tp.now room.old) result tp.now room.new }
{
    if room.len() != r.limit {
        return stages::step_same(r, Find::Refused, stamps::start(t.before));
    }
    if tp.len() != r.size {
        return stages::step_same(r, Find::Notice(6), stamps::start(t.before));
    }
    match stages::take_up(r, t, tp) {
        Course::Gives(step) => step,
        Course::Reads(w) => {
            let a = walk::onward(w, t.now, tp, room);
            stages::tell(stages::counted(r), t.now, a)
        }
    }
}

// The next find of the TP; the same TP and room are lent until one says none.
pub fn next(r: Receiver, tp: &[u8], room: &mut [u8]) -> Step
    requires { Able r }
    ensures { Gives (call_of r tp.now room.old) result tp.now room.new }
{
    call(r, stages::own_stamps(r), tp, room)
}

// The same by the caller's stamp for this TP in place of the count, which moves on.
pub fn next_as(r: Receiver, stamp: Stamp, tp: &[u8], room: &mut [u8]) -> Step
    requires { Able r }
    ensures { Gives (call_as r (always stamp) tp.now room.old) result tp.now room.new }
{
    let t = Stamps {
        before: stamp,
        now: stamp,
    };
    call(r, t, tp, room)
}

// Where what is unfinished began: the packet that is kept, else the header or EP under way.
pub fn pending(r: Receiver) -> Option<Place>
    requires { Able r }
    ensures { result ≡ pending_of r.walk }
{
    match r.walk.kept {
        None => under_way(r.walk),
        Some(kept) => Some(kept.began),
    }
}

fn under_way(w: Walk) -> Option<Place>
    ensures { result ≡ under_way w.phase w.began }
{
    match w.phase {
        Phase::Lost => None,
        Phase::Head { have, word: _ } => {
            if have == 0 {
                return None;
            }
            Some(w.began)
        }
        Phase::Judged(_) | Phase::Body { header: _, left: _ } => Some(w.began),
    }
}

// Whether the same TP has more to give behind a find.
pub fn lasts(find: Find) -> bool
    ensures { result ≡ lasts find }
{
    match find {
        Find::Nothing | Find::Refused => false,
        Find::Notice(n) => 9 < n,
        Find::Low { .. } | Find::Ordinary { .. } => true,
    }
}

// One piece further, with no room: the calls of `next` piece by piece.
pub fn turn(r: Receiver, tp: &[u8]) -> Turned
    requires { Able r }
    ensures { TurnedAs r tp.now result }
{
    if r.size != tp.len() {
        return pieces::same(r, 6);
    }
    match r.stage {
        Stage::Fresh => pieces::first(r, tp),
        Stage::Low(offset) => pieces::llep(r, offset, tp),
        Stage::Due(offset) => pieces::due(r, offset, tp),
        Stage::Plain => pieces::plain(r, tp),
    }
}

// Whether the same TP has more to give behind a turn.
pub fn goes_on(told: Option<Find>) -> bool
    ensures { result ≡ told_goes_on told }
{
    match told {
        None => true,
        Some(find) => lasts(find),
    }
}

// Being told of a gap.
pub fn gap(r: Receiver) -> Receiver
    requires { Able r }
    ensures { (result ≡ gap_of r) × Able result }
{
    fresh(r.size, r.stream, r.limit, r.count)
}

// As much of a stretch as there is.
fn part(s: &[u8], start: usize, len: usize) -> &[u8]
    ensures { result.now ≡ take len (drop start s.now) }
{
    let from = start.min(s.len());
    let end = from + len.min(s.len() - from);
    &s[from..end]
}

// The stretch that a find names: of the TP if low-latency, of the room if ordinary, else empty.
pub fn found<'a>(tp: &'a [u8], room: &'a [u8], f: Find) -> &'a [u8]
    ensures { result.now ≡ data_of f tp.now room.now }
{
    match f {
        Find::Nothing | Find::Refused | Find::Notice(_) => part(tp, 0, 0),
        Find::Low {
            content: _,
            start,
            len,
        } => part(tp, start, len),
        Find::Ordinary { content: _, len } => part(room, 0, len),
    }
}
