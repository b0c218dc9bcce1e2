// The records of a recording that is opened by its name, from any one of them on: for c7index a line for each packet, for c7at the
// packet asked for.
#![tactic(auto)]

ghost use Rattle.std.specs.Prelude.{◌≡◌, ◌+◌, ◌<◌, length};
ghost use Rattle.receiver.specs.State.{Able};
ghost use Rattle.block.specs.Block.{put as Block·put};
ghost use Rattle.index_loop.specs.Advancing.{GoesOn, ReadsOn, Advanced, Starts, Empties};
ghost use Rattle.index_loop.specs.Walking.{text_of, Found, Onward, Ready, Ahead, Lies, Walked, Heard, Does, Taken};

mod lanes;

use console::Unread;
use house::{Fault, Place, Record};
use jumping::Wanted;
use receiver::{Find, Place as Began, Receiver, Stamp};
use std::fs::File;

// No TP has so many finds, and no input block so many records: a loop over them ends for this. One that it cut short would go on
// at the same place.
const FINDS: u64 = 4096;

const RECORDS: u64 = 16384;

// So many blocks are read before the caller hears of it.
const BLOCKS: u64 = 512;

// What is put for a find: its line, where its record is not covered; or its record, if it is the packet asked for.
// An enum, and no trait of two tasks: `Writes` of crates/indexed names `Index`.
#[derive(Clone, Copy)]
pub enum Task {
    Index(u64),
    Seek(Wanted),
}

// Why reading stopped: there is more; the recording's end, which may cut a record; a bad record; it cannot be read.
#[derive(Clone, Copy)]
pub enum Stop {
    More,
    End,
    Bad(Fault),
    Unreadable,
}

// Between two finds: the receiver, the record's number, how much of the output block is held, where in the input block the record
// begins.
#[derive(Clone, Copy)]
struct Run {
    receiver: Receiver,
    record: u64,
    at: usize,
    from: usize,
}

// Behind a find: the receiver, how much of the output block is held, whether the TP goes on.
#[derive(Clone, Copy)]
struct Went {
    receiver: Receiver,
    at: usize,
    lasts: bool,
}

// The stretch of the input block that is not yet taken, and why no more is read.
#[derive(Clone, Copy)]
struct Next {
    unread: Unread,
    stop: Stop,
}

// Between two calls: as between two finds, and the stretch of the input block that is not yet taken, which begins with that record.
#[derive(Clone, Copy)]
pub struct Walk {
    pub receiver: Receiver,
    pub record: u64,
    pub at: usize,
    pub unread: Unread,
    pub stop: Stop,
}

// Puts what the task asks for of a find of the record with this number.
fn put(
    task: Task,
    number: u64,
    began: Began,
    find: Find,
    data: &[u8],
    out: &mut [u8],
    at: usize,
) -> usize
    ensures { record { bytes = out.new; at = result } ≡ Block·put out.old at (text_of task number began find «data».now) }
{
    match task {
        Task::Index(covered) => indexing::put_new(covered, number, began, find, out, at),
        Task::Seek(wanted) => jumping::put_wanted(wanted, began, find, data, out, at),
    }
}

// One find. The receiver is called at this one place for both tasks, so that the compiler makes one function of the call and the loops.
fn find(
    task: Task,
    r: Receiver,
    stamp: Stamp,
    tp: &[u8],
    room: &mut [u8],
    out: &mut [u8],
    at: usize,
) -> Went
    requires { Able r }
    ensures { Found task r stamp tp.now room.old out.old at result room.new out.new }
{
    let step = receiver::next_as(r, stamp, tp, room);
    let find = step.find;
    let data = receiver::found(tp, room, find);
    let held = put(task, stamp.number, step.about.at, find, data, out, at);
    Went {
        receiver: step.receiver,
        at: held,
        lasts: receiver::lasts(find),
    }
}

// The finds of a TP, until so much of the output block is held; then the TP is done.
fn finds(
    task: Task,
    full: usize,
    gone: u64,
    first: Run,
    tp: &[u8],
    room: &mut [u8],
    out: &mut [u8],
) -> Run
    requires able { Able first.receiver }
    requires tp_bound { first.from + 8 + length tp.now < 18446744073709551616 }
    ensures onward { Onward first (length tp.now) result }
    ensures heard { Heard task gone tp.now first room.old out.old result room.new out.new }
{
    let stamp = Stamp {
        number: first.record,
        byte: files::sum(gone, first.from as u64),
    };
    let mut run = first;
    for _ in 0..FINDS {
        if full <= run.at {
            return run;
        }
        let went = find(task, run.receiver, stamp, tp, room, out, run.at);
        run.receiver = went.receiver;
        run.at = went.at;
        if !went.lasts {
            return Run {
                record: files::sum(first.record, 1),
                from: first.from + 8 + tp.len(),
                ..run
            };
        }
    }
    run
}

// What one record does; kinds other than 4 and 5 are not read here.
fn turn(
    task: Task,
    full: usize,
    gone: u64,
    run: Run,
    said: Record,
    data: &[u8],
    room: &mut [u8],
    out: &mut [u8],
) -> Run
    requires able { Able run.receiver }
    requires data_bound { run.from + 8 + length «data».now < 18446744073709551616 }
    ensures onward { Onward run (length «data».now) result }
    ensures does { Does said task gone «data».now run room.old out.old result room.new out.new }
{
    if let Record::Packet { .. } = said {
        return finds(task, full, gone, run, data, room, out);
    }
    Run {
        receiver: receiver::gap(run.receiver),
        record: files::sum(run.record, 1),
        from: run.from + 8,
        ..run
    }
}

// Takes the whole records of the input block, until so much of the output block is held.
fn turns(
    task: Task,
    full: usize,
    gone: u64,
    first: Run,
    till: usize,
    block: &[u8],
    room: &mut [u8],
    out: &mut [u8],
) -> Run
    requires { Ready first till (length block.now) }
    ensures ahead { Ahead first till result }
    ensures taken { Taken task gone till block.now first room.old out.old result room.new out.new }
{
    let mut run = first;
    for _ in 0..RECORDS {
        if full <= run.at {
            return run;
        }
        run = lanes::pass_all(task, full, gone, run, till, block, room, out);
        let unread = &block[run.from..till];
        let Ok(Some(said)) = house::read_record(Place::Listing, unread) else {
            return run;
        };
        let data = house::data_of(said, unread);
        run = turn(task, full, gone, run, said, data, room, out);
    }
    run
}

// Reads the record anew that is not whole, and what follows it.
fn read_on(file: &File, block: &mut [u8], unread: Unread) -> Next
    requires { Lies (length block.old) unread }
    ensures lies { Lies (length block.new) result.unread }
    ensures reads_on { ReadsOn block.old unread result.stop result.unread block.new }
{
    let begin = console::begin_of(unread);
    let Some(count) = files::read_at(file, begin, block) else {
        return Next {
            unread,
            stop: Stop::Unreadable,
        };
    };
    if count <= unread.till - unread.from {
        return Next {
            unread,
            stop: Stop::End,
        };
    }
    Next {
        unread: Unread {
            gone: begin,
            from: 0,
            till: count,
        },
        stop: Stop::More,
    }
}

// Where no more records of the block can be taken: reads on unless a whole record is at hand. A bad one stops.
fn go_on(file: &File, block: &mut [u8], unread: Unread) -> Next
    requires { Lies (length block.old) unread }
    ensures lies { Lies (length block.new) result.unread }
    ensures goes_on { GoesOn block.old unread result.stop result.unread block.new }
{
    let stop = match house::read_record(Place::Listing, console::bytes_of(block, unread)) {
        Ok(None) => return read_on(file, block, unread),
        Ok(Some(_)) => Stop::More,
        Err(fault) => Stop::Bad(fault),
    };
    Next { unread, stop }
}

// Reads on from a record, until so much of the output block is held, the recording ends, or many blocks are read.
pub fn advance(
    file: &File,
    task: Task,
    full: usize,
    first: Walk,
    block: &mut [u8],
    room: &mut [u8],
    out: &mut [u8],
) -> Walk
    requires { Walked (length block.old) first }
    ensures walked { Walked (length block.new) result }
    ensures advanced { Advanced task first block.old room.old out.old result block.new room.new out.new }
{
    let mut walk = first;
    for _ in 0..BLOCKS {
        let unread = walk.unread;
        let run = Run {
            receiver: walk.receiver,
            record: walk.record,
            at: walk.at,
            from: unread.from,
        };
        let ahead = turns(task, full, unread.gone, run, unread.till, block, room, out);
        let rest = Unread {
            from: ahead.from,
            ..unread
        };
        let next = go_on(file, block, rest);
        walk = Walk {
            receiver: ahead.receiver,
            record: ahead.record,
            at: ahead.at,
            unread: next.unread,
            stop: next.stop,
        };
        if !matches!(walk.stop, Stop::More) || full <= walk.at {
            return walk;
        }
    }
    Walk {
        stop: Stop::More,
        ..walk
    }
}

// Before a record with this number, whose first byte this is.
pub fn start(receiver: Receiver, record: u64, byte: u64) -> Walk
    requires { Able receiver }
    ensures walked { Walked 0 result }
    ensures starts { Starts receiver «record» byte result }
{
    Walk {
        receiver,
        record,
        at: 0,
        unread: Unread {
            gone: byte,
            from: 0,
            till: 0,
        },
        stop: Stop::More,
    }
}

// What was held is written out.
pub fn emptied(walk: Walk) -> Walk
    requires { Able walk.receiver }
    ensures unread_value { (result.unread ≡ walk.unread) × Able result.receiver }
    ensures empties { Empties walk result }
{
    Walk { at: 0, ..walk }
}
