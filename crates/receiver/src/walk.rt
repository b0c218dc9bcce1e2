// Ordinary bytes: read on up to the next find, in runs.
ghost use Rattle.std.specs.Prelude.{◌≡◌, ◌+◌, ◌-◌, ◌≤◌, ◌<◌, ◌^◌, length, take, drop};
ghost use Rattle.digits.specs.Digits.{number};
ghost use Rattle.receiver.specs.State.{Sound, Roomy, Counts};
ghost use Rattle.receiver.specs.Turns.{header_turn, body_turn, grown_by, begun_at, advance_of};
ghost use Rattle.receiver.specs.InWalk.{pasted, room_of, Ends};

use crate::{Place, Stamp, judge, stamps, stride};
use wire::Header;

// Out of step; in a header, of which these bytes are read (none between two EPs); behind a header that got 14; in an
// EP's data, of which so many bytes are left.
#[derive(Clone, Copy)]
pub enum Phase {
    Lost,
    Head { have: usize, word: u64 },
    Judged(Header),
    Body { header: Header, left: usize },
}

// What is kept at the room's start: so many bytes of a packet of this content, in the headers of whose EPs so many bits were repaired, and where it
// began. Inside an EP nothing kept means that it is passed over.
#[derive(Clone, Copy)]
pub struct Kept {
    pub content: u8,
    pub repaired: u64,
    pub began: Place,
    pub len: usize,
}

// `began` is the place of the header or EP under way; where there is none, nobody reads it.
#[derive(Clone, Copy)]
pub struct Walk {
    pub at: usize,
    pub phase: Phase,
    pub began: Place,
    pub kept: Option<Kept>,
}

// A notice is of the EP under way.
#[derive(Clone, Copy)]
pub enum Gain {
    Nothing,
    Notice(u8),
    Packet {
        content: u8,
        repaired: u64,
        began: Place,
        len: usize,
    },
}

#[derive(Clone, Copy)]
pub struct Answer {
    pub walk: Walk,
    pub gain: Gain,
}

// A turn behind which reading goes on, or the last one. Neither is a failure, as one side of a Result would be.
#[derive(Clone, Copy)]
pub enum Turn {
    More(Walk),
    Stop(Answer),
}

// The number of n bytes behind those of word, of which there are have.
pub fn gather(tp: &[u8], at: usize, n: usize, have: usize, word: u64) -> u64
    requires { (have + n ≤ 6) × (word < 256 ^ have) × (at + n ≤ length tp.now) }
    ensures { result ≡ number word (take n (drop at tp.now)) }
{
    let mut w = word;
    for i in 0..n {
        w = w * 256 + tp[at + i] as u64;
    }
    w
}

// The number of six bytes.
pub fn six(tp: &[u8], at: usize) -> u64
    requires { at + 6 ≤ length tp.now }
    ensures { result ≡ number 0 (take 6 (drop at tp.now)) }
{
    let end = at + 6;
    let h = &tp[at..end];
    digits::from_six(h[0], h[1], h[2], h[3], h[4], h[5])
}

// A header's number, of which have bytes are read; at once where none is.
fn complete(tp: &[u8], at: usize, have: usize, word: u64) -> u64
    requires { (have ≤ 5) × (word < 256 ^ have) × (at + (6 - have) ≤ length tp.now) }
    ensures { result ≡ number word (take (6 - have) (drop at tp.now)) }
{
    if have == 0 {
        return six(tp, at);
    }
    gather(tp, at, 6 - have, have, word)
}

// Reading a header on, which began there.
fn header(
    tp: &[u8],
    at: usize,
    have: usize,
    word: u64,
    began: Place,
    kept: Option<Kept>,
    cap: usize,
) -> Turn
    requires have_bound { (have ≤ 5) × (word < 256 ^ have) × (at ≤ length tp.now) }
    requires roomy { Roomy cap kept 0 }
    ensures { result ≡ header_turn tp.now at have word began kept cap }
{
    let rest = tp.len() - at;
    let missing = 6 - have;
    if rest < missing {
        let w = gather(tp, at, rest, have, word);
        let end = at + rest;
        let got = have + rest;
        let phase = Phase::Head { have: got, word: w };
        return judge::stop(end, phase, began, kept, Gain::Nothing);
    }
    let w = complete(tp, at, have, word);
    judge::whole(at + missing, w, began, kept, cap)
}

// What is kept, with n bytes more.
fn grown(n: usize, kept: Option<Kept>) -> Option<Kept>
    requires { Counts kept n }
    ensures { result ≡ grown_by n kept }
{
    let k = kept?;
    Some(Kept {
        len: k.len + n,
        ..k
    })
}

// Reading an EP's data on.
fn body(tp: &[u8], at: usize, header: Header, left: usize, began: Place, kept: Option<Kept>) -> Turn
    requires { (at ≤ length tp.now) × Counts kept left }
    ensures { result ≡ body_turn tp.now at header left began kept }
{
    let rest = tp.len() - at;
    if rest < left {
        let k = grown(rest, kept);
        let end = at + rest;
        let remains = left - rest;
        let phase = Phase::Body {
            header,
            left: remains,
        };
        return judge::stop(end, phase, began, k, Gain::Nothing);
    }
    let k = grown(left, kept);
    judge::finish(at + left, header, began, k)
}

// Where a header began, of which have bytes are read: here if none is.
fn begun(stamp: Stamp, at: usize, have: usize, began: Place) -> Place
    ensures { result ≡ begun_at stamp at have began }
{
    if have == 0 {
        return stamps::of(stamp, at);
    }
    began
}

// One turn among ordinary bytes of a TP of this stamp: a header or what there is of it, or a run of data.
pub fn advance(w: Walk, stamp: Stamp, tp: &[u8], cap: usize) -> Turn
    requires { Sound cap (length tp.now) w }
    ensures { result ≡ advance_of cap stamp w tp.now }
{
    let at = w.at;
    let began = w.began;
    let kept = w.kept;
    match w.phase {
        Phase::Lost => judge::stop(tp.len(), w.phase, began, kept, Gain::Nothing),
        Phase::Head { have, word } => {
            let first = begun(stamp, at, have, began);
            header(tp, at, have, word, first, kept, cap)
        }
        Phase::Judged(h) => judge::admit(at, h, began, kept, cap),
        Phase::Body { header: h, left } => body(tp, at, h, left, began, kept),
    }
}

// n bytes of an EP's data, into the room if they are kept.
fn put(tp: &[u8], at: usize, n: usize, kept: Option<Kept>, room: &mut [u8])
    requires n_in_bounds { at + n ≤ length tp.now }
    requires roomy { Roomy (length room.old) kept n }
    ensures { room.new ≡ pasted kept room.old (drop at tp.now) n }
{
    match kept {
        None => {}
        Some(k) => {
            let end = at + n;
            queue::copy_at(room, k.len, &tp[at..end]);
        }
    }
}

// The same turn, the data that it reads put into the room if they are kept.
fn advance_in(w: Walk, stamp: Stamp, tp: &[u8], room: &mut [u8]) -> Turn
    requires { Sound (length room.old) (length tp.now) w }
    ensures { (result ≡ advance_of (length room.old) stamp w tp.now) × (room.new ≡ room_of w tp.now room.old) }
{
    if let Phase::Body { header, left } = w.phase {
        let n = left.min(tp.len() - w.at);
        put(tp, w.at, n, w.kept, room);
        return body(tp, w.at, header, left, w.began, w.kept);
    }
    advance(w, stamp, tp, room.len())
}

// Reads on up to the next find, and not a byte further.
pub fn onward(start: Walk, stamp: Stamp, tp: &[u8], room: &mut [u8]) -> Answer
    requires { Sound (length room.old) (length tp.now) start }
    ensures { Ends (length room.old) stamp start tp.now room.old result room.new }
{
    let mut w = start;
    loop {
        match stride::on(w, stamp, tp, room) {
            Turn::Stop(a) => return a,
            Turn::More(q) => match advance_in(q, stamp, tp, room) {
                Turn::More(x) => w = x,
                Turn::Stop(a) => return a,
            },
        }
    }
}
