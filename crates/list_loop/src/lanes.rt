// TPs in tracks: their lines, with no more of a receiver carried from TP to TP than its track.
ghost use Rattle.std.specs.Prelude.{◌≡◌, false, ◌≤◌, ◌<◌, eqb, length};
ghost use Rattle.listing.specs.Tens.{Kept};
ghost use Rattle.receiver.specs.State.{Able};
ghost use Rattle.receiver.specs.Tracks.{Kempt};
ghost use Rattle.list_loop.specs.Running.{Midway, Ahead, Listed};
ghost use Rattle.list_loop.specs.Lanes.{start_stage, part_left, Steady, LeavesBy, LeadsBy, RunsBy, PassesBy, PartedBy, PartSteady};

use crate::Run;
use console::FULL;
use house::{Place, Record};
use listing::Numbered;
use receiver::lane::Top;
use receiver::track::{Onto, Track};
use receiver::{Find, Receiver, Stage, Stamp, lane, track};

// What of a TP is left to calls: all; nothing; or what follows a place, from this stage on.
#[derive(Clone, Copy)]
enum Left {
    All,
    Done,
    From(Stage, usize),
}

#[derive(Clone, Copy)]
struct Passed {
    left: Left,
    track: Track,
    held: Numbered,
}

// From EP to EP, until so much of the output block is held. Where nothing is put, `left` stands.
fn run_on(
    o: Onto,
    left: Left,
    stamp: Stamp,
    first: Numbered,
    number: u64,
    tp: &[u8],
    room: &mut [u8],
    out: &mut [u8],
) -> Passed
    requires kept { Kept first.ten × (first.at < 61440) × (61520 ≤ length out.old) × (length tp.now ≤ 131072) }
    requires content_bound { (o.sort ≡ 3 → o.content ≤ 6) × (o.place ≤ length tp.now) × (eqb o.sort 3 ≡ false → o.track.sort ≤ 3) × (o.track.flips < 256) }
    ensures steady { Steady result first.at }
    ensures runs_by { RunsBy result o stamp left number tp.now room.old out.old first.at room.new out.new }
{
    let t = o.track;
    let mut held = first;
    let mut place = o.place;
    let mut due = o.sort == track::PACKET;
    let mut content = o.content;
    let mut len = o.len;
    loop {
        if due {
            let find = Find::Ordinary {
                content: content as u8,
                len,
            };
            held = listing::line_in(held, number, find, out);
            if FULL <= held.at {
                return Passed {
                    left: Left::From(Stage::Plain, place),
                    track: track::turned(t, track::IDLE),
                    held,
                };
            }
        }
        let a = track::ahead(place, tp, room.len());
        if a.sort != track::WHOLE {
            if a.sort != track::OFF {
                return Passed {
                    left: Left::Done,
                    track: track::behind(t, a, stamp, tp, room),
                    held,
                };
            }
            if due {
                return Passed {
                    left: Left::From(Stage::Plain, place),
                    track: track::turned(t, track::IDLE),
                    held,
                };
            }
            return Passed {
                left,
                track: t,
                held,
            };
        }
        let start = a.from + 6;
        place = start + a.size;
        queue::copy_at(room, 0, &tp[start..place]);
        content = a.content;
        len = a.size;
        due = true;
    }
}

// The ordinary bytes, from `here` on. Where nothing is put, `left` stands.
fn ordinary(
    t: Track,
    offset: usize,
    left: Left,
    here: usize,
    stamp: Stamp,
    held: Numbered,
    number: u64,
    tp: &[u8],
    room: &mut [u8],
    out: &mut [u8],
) -> Passed
    requires kept { Kept held.ten × (held.at < 61440) × (61520 ≤ length out.old) × (length tp.now ≤ 131072) }
    requires le_here { (4 ≤ here) × (here ≤ length tp.now) × (offset < 2048) × (t.sort ≤ 3) × Kempt (length room.old) t }
    ensures steady { Steady result held.at }
    ensures leads_by { LeadsBy result t stamp left offset here number tp.now room.old out.old held.at room.new out.new }
{
    let o = track::set_out(t, offset, here, tp, room);
    if o.sort == track::OFF {
        return Passed {
            left,
            track: t,
            held,
        };
    }
    if o.sort == track::OVER {
        return Passed {
            left: Left::Done,
            track: o.track,
            held,
        };
    }
    run_on(o, left, stamp, held, number, tp, room, out)
}

// Behind the low-latency part, or within it, at this place.
#[derive(Clone, Copy)]
struct Parted {
    within: bool,
    place: usize,
    held: Numbered,
}

// The low-latency part, as long as its LLEPs are packets, while the output block has room.
fn low_part(first: Numbered, number: u64, tp: &[u8], out: &mut [u8]) -> Parted
    requires { Kept first.ten × (first.at < 61440) × (61520 ≤ length out.old) × (4 ≤ length tp.now) × (length tp.now ≤ 131072) }
    ensures part_steady { PartSteady result tp.now out.old out.new first.at }
    ensures parted_by { PartedBy result number tp.now out.old first.at out.new }
{
    let mut held = first;
    let mut place = 4;
    let mut within = true;
    while within {
        let l = track::llep_at(tp, place);
        if !l.found {
            break;
        }
        let find = Find::Low {
            content: l.content as u8,
            start: place + 6,
            len: l.size,
        };
        held = listing::line_in(held, number, find, out);
        place = place + 7 + l.size;
        within = l.more;
        if FULL <= held.at {
            break;
        }
    }
    Parted {
        within,
        place,
        held,
    }
}

// What is left behind it: all of the TP where not even its first LLEP is a packet.
fn left_behind(p: Parted, offset: usize) -> Left
    ensures { result ≡ part_left p offset }
{
    if !p.within {
        return Left::From(Stage::Due(offset), p.place);
    }
    if p.place == 4 {
        return Left::All;
    }
    Left::From(Stage::Low(offset), p.place)
}

// The payload of a TP whose header says so.
fn payload(
    t: Track,
    low: bool,
    offset: usize,
    stamp: Stamp,
    held: Numbered,
    number: u64,
    tp: &[u8],
    room: &mut [u8],
    out: &mut [u8],
) -> Passed
    requires { Kept held.ten × (held.at < 61440) × (61520 ≤ length out.old) × (4 ≤ length tp.now) × (length tp.now ≤ 131072) × (offset < 2048) × (t.sort ≤ 3) × Kempt (length room.old) t }
    ensures steady { Steady result held.at }
    ensures leaves_by { LeavesBy result t stamp (start_stage low offset) 4 number tp.now room.old out.old held.at room.new out.new }
{
    if !low {
        return ordinary(t, offset, Left::All, 4, stamp, held, number, tp, room, out);
    }
    let p = low_part(held, number, tp, out);
    let left = left_behind(p, offset);
    if p.within || FULL <= p.held.at {
        return Passed {
            left,
            track: t,
            held: p.held,
        };
    }
    ordinary(
        t, offset, left, p.place, stamp, p.held, number, tp, room, out,
    )
}

// One TP, in a track of the receiver `base`.
fn pass(
    base: Receiver,
    t: Track,
    stamp: Stamp,
    held: Numbered,
    number: u64,
    tp: &[u8],
    room: &mut [u8],
    out: &mut [u8],
) -> Passed
    requires { Able base × Kept held.ten × (held.at < 61440) × (61520 ≤ length out.old) × (t.sort ≤ 3) × Kempt (length room.old) t × (length room.old ≡ base.limit) × (length tp.now ≤ 131072) }
    ensures steady { Steady result held.at }
    ensures passes_by { PassesBy result t base stamp number tp.now room.old out.old held.at room.new out.new }
{
    if t.sort == track::LOST {
        let n = track::dropped(base, tp);
        if n == 1 {
            return Passed {
                left: Left::Done,
                track: t,
                held,
            };
        }
        if n != 0 {
            let put = listing::line_in(held, number, Find::Notice(n as u8), out);
            return Passed {
                left: Left::Done,
                track: t,
                held: put,
            };
        }
    }
    if t.sort == track::IDLE && track::is_fill(base, tp) {
        return Passed {
            left: Left::Done,
            track: t,
            held,
        };
    }
    let Top::Says { low, offset } = lane::top(base, tp) else {
        return Passed {
            left: Left::All,
            track: t,
            held,
        };
    };
    payload(t, low, offset, stamp, held, number, tp, room, out)
}

// Takes the whole TPs of the input block as long as the receiver is in a track, while the output block has room.
pub fn pass_all(first: Run, till: usize, block: &[u8], room: &mut [u8], out: &mut [u8]) -> Run
    requires { Midway first till (length block.now) (length out.old) }
    ensures ahead { Ahead first till result }
    ensures listed { Listed till block.now first room.old out.old result room.new out.new }
{
    let base = first.receiver;
    let mut t = track::of(base);
    if t.sort == track::NONE {
        return first;
    }
    // Calls refuse a room of another length.
    if room.len() != lane::room_of(base) {
        return first;
    }
    let mut count = lane::count_of(base);
    let mut done = first.done;
    let mut held = Numbered {
        ten: first.ten,
        at: first.at,
    };
    let mut from = first.from;
    while held.at < FULL {
        let unread = &block[from..till];
        let Ok(Some(said)) = house::read_record(Place::Listing, unread) else {
            break;
        };
        let Record::Packet { length: _ } = said else {
            break;
        };
        let tp = house::data_of(said, unread);
        let counted = lane::counted(count);
        let stamp = Stamp {
            number: counted,
            byte: 0,
        };
        let p = pass(base, t, stamp, held, done + 1, tp, room, out);
        held = p.held;
        t = p.track;
        match p.left {
            Left::All => break,
            Left::Done => {}
            Left::From(stage, place) => {
                return Run {
                    receiver: track::back(base, counted, t, stage, place),
                    done,
                    ten: held.ten,
                    at: held.at,
                    from,
                };
            }
        }
        count = counted;
        done += 1;
        from = from + 8 + tp.len();
    }
    Run {
        receiver: track::back(base, count, t, Stage::Fresh, 0),
        done,
        ten: held.ten,
        at: held.at,
        from,
    }
}
