// TPs in lanes, for an index: the lines of their packets, with no more of a receiver carried from TP to TP than its lane.
ghost use Rattle.std.specs.Prelude.{◌≡◌, ◌≤◌, ◌<◌, length};
ghost use Rattle.block.specs.Block.{put};
ghost use Rattle.receiver.specs.State.{Able};
ghost use Rattle.receiver.specs.Lanes.{Tidy, in_lane};
ghost use Rattle.receiver.specs.Lows.{lows_of};
ghost use Rattle.receiver.specs.declared.Stage.TheVariants.{Fresh, Due, Plain};
ghost use Rattle.receiver.specs.declared.lane.Lane.TheVariants.{Idle};
ghost use Rattle.index_loop.specs.Walking.{Ready, Ahead, Taken};
ghost use Rattle.index_loop.specs.Lanes.{met_text, low_text, Looked, SetOut, way_by, plain_at, part_by, LeftFits, Leaves, LeavesBy, PartFits, PartedBy, PassedBy, RunIn, start_stage};

use crate::{FINDS, RECORDS, Run, Task};
use house::{Place, Record};
use receiver::lane::{Lane, Lows, Met, Top};
use receiver::{Find, Receiver, Stage, Stamp, lane};
use std::ops::ControlFlow;

// What of a TP is left to calls: nothing, and this is the next TP's lane; all; or what follows this place, in this lane and stage.
#[derive(Clone, Copy)]
pub enum Left {
    Nothing(Lane),
    All,
    From {
        lane: Lane,
        stage: Stage,
        place: usize,
    },
}

// In the low-latency part at this place, or behind it.
#[derive(Clone, Copy)]
pub enum Part {
    Within(usize),
    Broken,
    Behind(usize),
}

// What is met among ordinary bytes, and how much of the output block is held with its line.
// The four structs like it stay apart: a field's name says what it holds, which a generic one's could not.
#[derive(Clone, Copy)]
pub struct Noted {
    met: Met,
    at: usize,
}

// The same of the low-latency part.
#[derive(Clone, Copy)]
pub struct NotedLow {
    lows: Lows,
    at: usize,
}

// How far the low-latency part is read, and how much of the output block is held.
#[derive(Clone, Copy)]
pub struct Parted {
    part: Part,
    at: usize,
}

// What of a TP is left, and how much of the output block is held.
#[derive(Clone, Copy)]
pub struct Passed {
    left: Left,
    at: usize,
}

// A TP in lanes, for an index: how many records it covers, how much of the output block is held at most, the stamp and the bytes.
#[derive(Clone, Copy)]
struct Laned<'a> {
    covered: u64,
    full: usize,
    stamp: Stamp,
    tp: &'a [u8],
}

// Where the next EP begins behind what is met; or what is left, where no more is met, and `here` where that is left to a call.
fn way_of(met: Met, here: Left) -> ControlFlow<Left, usize>
    ensures { result ≡ way_by met here }
{
    match met {
        Met::Other => ControlFlow::Break(here),
        Met::Drops(_) => ControlFlow::Break(Left::Nothing(Lane::Lost)),
        Met::Ends(lane) => ControlFlow::Break(Left::Nothing(lane)),
        Met::Reads(end) | Met::Gives { end, .. } => ControlFlow::Continue(end),
    }
}

// Between two EPs, at this place.
fn plain(place: usize) -> Left
    ensures { result ≡ plain_at place }
{
    Left::From {
        lane: Lane::Idle,
        stage: Stage::Plain,
        place,
    }
}

// Where a find leaves the low-latency part.
fn part_of(lows: Lows) -> Part
    ensures { result ≡ part_by lows }
{
    match lows {
        Lows::Broken(_) => Part::Broken,
        Lows::Gives {
            more: true,
            end,
            ..
        } => Part::Within(end),
        Lows::End(end) | Lows::Gives { end, .. } => Part::Behind(end),
    }
}

impl Laned<'_> {
    // Puts the line of a packet that is met.
    fn note(self, met: Met, out: &mut [u8], at: usize) -> usize
        ensures { record { bytes = out.new; at = result } ≡ put out.old at (met_text self.entry.covered self.entry.stamp.number met) }
    {
        let Met::Gives {
            content,
            began,
            len,
            ..
        } = met
        else {
            return at;
        };
        let find = Find::Ordinary { content, len };
        indexing::put_new(self.covered, self.stamp.number, began, find, out, at)
    }

    // Puts the line of a packet of the low-latency part.
    fn note_low(self, lows: Lows, out: &mut [u8], at: usize) -> usize
        ensures { record { bytes = out.new; at = result } ≡ put out.old at (low_text self.entry.covered self.entry.stamp lows) }
    {
        let Lows::Gives { find, from, .. } = lows else {
            return at;
        };
        let began = lane::place_of(self.stamp, from);
        indexing::put_new(self.covered, self.stamp.number, began, find, out, at)
    }

    // What is met between two EPs, from `start` on.
    fn ahead(self, start: usize, room: &mut [u8], out: &mut [u8], at: usize) -> Noted
        ensures { Looked self.entry.covered start self.entry.stamp self.entry.tp.now room.old out.old at result room.new out.new }
    {
        let met = lane::look_ahead(start, self.stamp, self.tp, room);
        let held = self.note(met, out, at);
        Noted { met, at: held }
    }

    // What is met behind the low-latency part, which ends at this place.
    fn outset(
        self,
        lane: Lane,
        offset: usize,
        place: usize,
        room: &mut [u8],
        out: &mut [u8],
        at: usize,
    ) -> Noted
        requires { Tidy (length room.old) lane }
        ensures { SetOut self.entry.covered lane offset place self.entry.stamp self.entry.tp.now room.old out.old at result room.new out.new }
    {
        let met = lane::set_out(lane, offset, place, self.tp, room);
        let held = self.note(met, out, at);
        Noted { met, at: held }
    }

    // What the low-latency part gives next, from this place on.
    fn low(self, place: usize, out: &mut [u8], at: usize) -> NotedLow
        ensures lows_value { result.lows ≡ lows_of self.entry.tp.now place }
        ensures at_after { record { bytes = out.new; at = result.at } ≡ put out.old at (low_text self.entry.covered self.entry.stamp result.lows) }
    {
        let lows = lane::lows(self.tp, place);
        let held = self.note_low(lows, out, at);
        NotedLow { lows, at: held }
    }

    // From EP to EP, until so much of the output block is held.
    fn run_on(self, begin: usize, room: &mut [u8], out: &mut [u8], held: usize) -> Passed
        ensures leaves { Leaves begin self.entry.tp.now room.old result.left }
        ensures leaves_by { LeavesBy self.entry.covered self.entry.stamp Idle Plain begin self.entry.tp.now room.old out.old held result room.new out.new }
    {
        let mut at = held;
        let mut place = begin;
        for _ in 0..FINDS {
            if self.full <= at {
                return Passed {
                    left: plain(place),
                    at,
                };
            }
            let noted = self.ahead(place, room, out, at);
            at = noted.at;
            match way_of(noted.met, plain(place)) {
                ControlFlow::Break(left) => return Passed { left, at },
                ControlFlow::Continue(next) => place = next,
            }
        }
        Passed {
            left: plain(place),
            at,
        }
    }

    // The ordinary bytes, behind a low-latency part that ends at this place.
    fn ordinary(
        self,
        lane: Lane,
        offset: usize,
        place: usize,
        room: &mut [u8],
        out: &mut [u8],
        at: usize,
    ) -> Passed
        requires tidy { Tidy (length room.old) lane }
        requires le_place { (4 ≤ place) × (offset < 2048) }
        ensures leaves { Leaves place self.entry.tp.now room.old result.left }
        ensures leaves_by { LeavesBy self.entry.covered self.entry.stamp lane (Due offset) place self.entry.tp.now room.old out.old at result room.new out.new }
    {
        let due = Left::From {
            lane,
            stage: Stage::Due(offset),
            place,
        };
        if self.full <= at {
            return Passed { left: due, at };
        }
        let noted = self.outset(lane, offset, place, room, out, at);
        let at = noted.at;
        match way_of(noted.met, due) {
            ControlFlow::Break(left) => Passed { left, at },
            ControlFlow::Continue(begin) => self.run_on(begin, room, out, at),
        }
    }

    // The low-latency part, if there is one, until so much of the output block is held.
    fn low_part(self, present: bool, out: &mut [u8], held: usize) -> Parted
        requires { 4 ≤ length self.tp.now }
        ensures part_fits { PartFits (length self.entry.tp.now) result.part }
        ensures parted_by { PartedBy self.entry.covered self.entry.stamp present self.entry.tp.now out.old held result out.new }
    {
        if !present {
            return Parted {
                part: Part::Behind(4),
                at: held,
            };
        }
        let mut at = held;
        let mut place = 4;
        for _ in 0..FINDS {
            if self.full <= at {
                return Parted {
                    part: Part::Within(place),
                    at,
                };
            }
            let noted = self.low(place, out, at);
            at = noted.at;
            let part = part_of(noted.lows);
            let Part::Within(next) = part else {
                return Parted { part, at };
            };
            place = next;
        }
        Parted {
            part: Part::Within(place),
            at,
        }
    }

    // The payload of a TP whose header says so.
    fn payload(
        self,
        lane: Lane,
        present: bool,
        offset: usize,
        room: &mut [u8],
        out: &mut [u8],
        held: usize,
    ) -> Passed
        requires tidy { Tidy (length room.old) lane }
        requires in_bounds { (4 ≤ length self.tp.now) × (offset < 2048) }
        ensures leaves { Leaves 4 self.entry.tp.now room.old result.left }
        ensures leaves_by { LeavesBy self.entry.covered self.entry.stamp lane (start_stage present offset) 4 self.entry.tp.now room.old out.old held result room.new out.new }
    {
        let parted = self.low_part(present, out, held);
        let at = parted.at;
        match parted.part {
            Part::Within(place) => Passed {
                left: Left::From {
                    lane,
                    stage: Stage::Low(offset),
                    place,
                },
                at,
            },
            Part::Broken => Passed {
                left: Left::Nothing(Lane::Lost),
                at,
            },
            Part::Behind(place) => self.ordinary(lane, offset, place, room, out, at),
        }
    }

    // All of it, in a lane of the receiver `base`.
    fn pass(self, lane: Lane, base: Receiver, room: &mut [u8], out: &mut [u8], at: usize) -> Passed
        requires able { Able base }
        requires room_len { length room.old ≡ base.limit }
        requires tidy { Tidy base.limit lane }
        ensures left_fits { LeftFits base result.left }
        ensures passed_by { PassedBy self.entry.covered self.entry.stamp lane base self.entry.tp.now room.old out.old at result room.new out.new }
    {
        match lane::top(base, self.tp) {
            Top::Elsewhere => Passed {
                left: Left::All,
                at,
            },
            Top::Dropped(_) => Passed {
                left: Left::Nothing(Lane::Lost),
                at,
            },
            Top::Says { low, offset } => self.payload(lane, low, offset, room, out, at),
        }
    }
}

// As a loop over calls goes on, in this lane and stage, at this place.
fn run_of(
    base: Receiver,
    count: u64,
    lane: Lane,
    stage: Stage,
    place: usize,
    record: u64,
    at: usize,
    from: usize,
) -> Run
    requires tidy { Tidy base.limit lane }
    requires able { Able (in_lane base count lane stage place) }
    ensures { RunIn base count lane stage place «record» at from result }
{
    Run {
        receiver: lane::in_lane(base, count, lane, stage, place),
        record,
        at,
        from,
    }
}

// The same, before a TP.
fn before(base: Receiver, count: u64, lane: Lane, record: u64, at: usize, from: usize) -> Run
    requires { Able base × Tidy base.limit lane }
    ensures { RunIn base count lane Fresh 0 «record» at from result }
{
    run_of(base, count, lane, Stage::Fresh, 0, record, at, from)
}

// For an index: takes the whole TPs of the input block as long as the receiver is in a lane, until so much of the output block is
// held.
pub fn pass_all(
    task: Task,
    full: usize,
    gone: u64,
    first: Run,
    till: usize,
    block: &[u8],
    room: &mut [u8],
    out: &mut [u8],
) -> Run
    requires { Ready first till (length block.now) }
    ensures ahead { Ahead first till result }
    ensures taken { Taken task gone till block.now first room.old out.old result room.new out.new }
{
    let Task::Index(covered) = task else {
        return first;
    };
    let base = first.receiver;
    if room.len() != lane::room_of(base) {
        return first;
    }
    let mut lane = lane::lane_of(base);
    if let Lane::Other = lane {
        return first;
    }
    let mut count = lane::count_of(base);
    let mut record = first.record;
    let mut at = first.at;
    let mut from = first.from;
    for _ in 0..RECORDS {
        if full <= at {
            return before(base, count, lane, record, at, from);
        }
        let unread = &block[from..till];
        let Ok(Some(said)) = house::read_record(Place::Listing, unread) else {
            return before(base, count, lane, record, at, from);
        };
        let Record::Packet { .. } = said else {
            return before(base, count, lane, record, at, from);
        };
        let tp = house::data_of(said, unread);
        let stamp = Stamp {
            number: record,
            byte: files::sum(gone, from as u64),
        };
        let laned = Laned {
            covered,
            full,
            stamp,
            tp,
        };
        let passed = laned.pass(lane, base, room, out, at);
        at = passed.at;
        match passed.left {
            Left::All => return before(base, count, lane, record, at, from),
            Left::From {
                lane: within,
                stage,
                place,
            } => {
                let counted = lane::counted(count);
                return run_of(base, counted, within, stage, place, record, at, from);
            }
            Left::Nothing(next) => {
                lane = next;
                count = lane::counted(count);
                record = files::sum(record, 1);
                from = from + 8 + tp.len();
            }
        }
    }
    before(base, count, lane, record, at, from)
}
