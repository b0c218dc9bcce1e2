// A transport packet from where a call takes it up: the low-latency part, the offset, and what the ordinary bytes gave.
ghost use Rattle.std.specs.Prelude.{◌≡◌, cond, ◌+◌, ◌≤◌, ◌<◌, length};
ghost use Rattle.receiver.specs.declared.Find.TheVariants as F;
ghost use Rattle.receiver.specs.declared.Stage.TheVariants.{Low, Due, Plain};
ghost use Rattle.receiver.specs.declared.walk.Phase.TheVariants.{Lost};
ghost use Rattle.receiver.specs.declared.low.Lows.TheVariants as L;
ghost use Rattle.receiver.specs.declared.stages.Course.TheVariants as C;
ghost use Rattle.receiver.specs.State.{Able};
ghost use Rattle.receiver.specs.Lows.{lows_of};
ghost use Rattle.receiver.specs.Call.{count_in, counted_of, stamps_of, due_call, stage_call};
ghost use Rattle.receiver.specs.Pieces.{same_of, step_of, step_with, tell_of};
ghost use Rattle.receiver.specs.InStages.{Lent, Leads, set_call, part_call};

use crate::entry::Begun;
use crate::low::Lows;
use crate::walk::{Answer, Gain, Kept, Phase, Walk};
use crate::{About, Find, Place, Receiver, Stage, Stamp, Step, entry, judge, low, outset, stamps};

// What a stage comes to, whatever room is lent: its find, or the walk to read on with up to the next one. Neither is a failure, as one side of
// a Result would be.
#[derive(Clone, Copy)]
pub enum Course {
    Gives(Step),
    Reads(Walk),
}

// The stamps of a call: that of a find which leaves the receiver as it was (1, 6, 8), and that of any other.
#[derive(Clone, Copy)]
pub struct Stamps {
    pub before: Stamp,
    pub now: Stamp,
}

// The count with this TP, which is counted at its first call.
fn raised(stage: Stage, count: u64) -> u64
    ensures { result ≡ count_in stage count }
{
    match stage {
        Stage::Fresh => stamps::counted(count),
        Stage::Low(_) | Stage::Due(_) | Stage::Plain => count,
    }
}

// The receiver with this TP counted.
pub fn counted(r: Receiver) -> Receiver
    ensures { result ≡ counted_of r }
{
    Receiver {
        count: raised(r.stage, r.count),
        ..r
    }
}

// The stamps by the receiver's own count.
pub fn own_stamps(r: Receiver) -> Stamps
    ensures { result ≡ stamps_of r }
{
    let c = counted(r);
    Stamps {
        before: stamps::own(r.count),
        now: stamps::own(c.count),
    }
}

// A find that carries a total, and where it leaves the receiver.
fn step_with(r: Receiver, stage: Stage, walk: Walk, found: Find, about: About) -> Step
    ensures { result ≡ step_with r stage walk found about }
{
    Step {
        receiver: Receiver { stage, walk, ..r },
        find: found,
        about,
    }
}

// A find that carries none, of this place.
pub fn step_to(
    r: Receiver,
    stage: Stage,
    at: usize,
    phase: Phase,
    kept: Option<Kept>,
    find: Find,
    place: Place,
) -> Step
    ensures { result ≡ step_of r stage at phase kept find place }
{
    let walk = Walk {
        at,
        phase,
        kept,
        ..r.walk
    };
    let about = About {
        repaired: 0,
        at: place,
    };
    step_with(r, stage, walk, find, about)
}

// A find that leaves the receiver as it was.
pub fn step_same(r: Receiver, find: Find, place: Place) -> Step
    ensures { result ≡ same_of r find place }
{
    Step {
        receiver: r,
        find,
        about: About {
            repaired: 0,
            at: place,
        },
    }
}

// What the ordinary bytes gave; none ends the TP.
pub fn tell(r: Receiver, stamp: Stamp, a: Answer) -> Step
    ensures { result ≡ tell_of a.gain r stamp a.walk }
{
    let w = a.walk;
    match a.gain {
        Gain::Nothing => {
            let walk = Walk { at: 0, ..w };
            let about = About {
                repaired: 0,
                at: stamps::start(stamp),
            };
            step_with(r, Stage::Fresh, walk, Find::Nothing, about)
        }
        Gain::Notice(n) => {
            let about = About {
                repaired: 0,
                at: w.began,
            };
            step_with(r, Stage::Plain, w, Find::Notice(n), about)
        }
        Gain::Packet {
            content,
            repaired,
            began: first,
            len,
        } => {
            let find = Find::Ordinary { content, len };
            let about = About {
                repaired,
                at: first,
            };
            step_with(r, Stage::Plain, w, find, about)
        }
    }
}

// Out of step, the rest of the TP dropped.
fn drop_rest(r: Receiver, len: usize, number: u8, place: Place) -> Course
    ensures { result ≡ C.Gives (step_of r Plain len Lost None (F.Notice number) place) }
{
    let none = judge::emptied(r.walk.kept);
    let find = Find::Notice(number);
    Course::Gives(step_to(r, Stage::Plain, len, Phase::Lost, none, find, place))
}

// Into the ordinary bytes, of which n stand before the first EP that begins here.
fn set_about(r: Receiver, at: usize, n: usize, stamp: Stamp, tp: &[u8]) -> Course
    requires { (at + n ≤ length tp.now) × Lent r at tp.now }
    ensures { Leads (set_call r stamp at n tp.now) r stamp tp.now result }
{
    let walk = Walk { at, ..r.walk };
    match outset::set_out(walk, n, tp) {
        Ok(x) => Course::Reads(x),
        Err(number) => {
            let start = at + n;
            let there = outset::upon(start, tp.len());
            let find = Find::Notice(number);
            let place = outset::lost_at(number, stamp, walk.began);
            let none = judge::emptied(walk.kept);
            Course::Gives(step_to(r, Stage::Plain, start, there, none, find, place))
        }
    }
}

// Behind the low-latency part, which ends at `at`.
fn due(r: Receiver, offset: usize, at: usize, stamp: Stamp, tp: &[u8]) -> Course
    requires { (offset < 2048) × Lent r at tp.now }
    ensures { Leads (due_call r stamp offset at tp.now) r stamp tp.now result }
{
    match outset::place_of(offset, at, tp.len()) {
        Err(number) => drop_rest(r, tp.len(), number, stamps::start(stamp)),
        Ok(n) => set_about(r, at, n, stamp, tp),
    }
}

fn low_walk(low: bool, tp: &[u8], at: usize) -> Lows
    requires { at ≤ length tp.now }
    ensures { result ≡ cond low (lows_of tp.now at) (L.End at) }
{
    if low {
        return low::walk(tp, at);
    }
    Lows::End(at)
}

pub fn low_stage(more: bool, offset: usize) -> Stage
    ensures { result ≡ cond more (Low offset) (Due offset) }
{
    if more {
        return Stage::Low(offset);
    }
    Stage::Due(offset)
}

// The low-latency part, if there is one, and what is behind it.
fn part(r: Receiver, low: bool, offset: usize, at: usize, stamp: Stamp, tp: &[u8]) -> Course
    requires { (offset < 2048) × Lent r at tp.now }
    ensures { Leads (part_call low r stamp offset at tp.now) r stamp tp.now result }
{
    match low_walk(low, tp, at) {
        Lows::Broken(i) => drop_rest(r, tp.len(), 11, stamps::of(stamp, i)),
        Lows::End(i) => due(r, offset, i, stamp, tp),
        Lows::Gives {
            find,
            repaired,
            from,
            more,
            end,
        } => {
            let stage = low_stage(more, offset);
            let there = Walk { at: end, ..r.walk };
            let about = About {
                repaired,
                at: stamps::of(stamp, from),
            };
            Course::Gives(step_with(r, stage, there, find, about))
        }
    }
}

// Takes the TP up where it stands. Each part of the way is called once, so that the compiler makes one function of all.
pub fn take_up(r: Receiver, t: Stamps, tp: &[u8]) -> Course
    requires { Able r × (length tp.now ≡ r.size) }
    ensures { Leads (stage_call r.stage r (counted_of r) t tp.now) (counted_of r) t.now tp.now result }
{
    match entry::begin(r, t, tp) {
        Begun::Gives(step) => Course::Gives(step),
        Begun::Part { low, offset, at } => part(counted(r), low, offset, at, t.now, tp),
        Begun::Plain => Course::Reads(r.walk),
    }
}
