// An index grows by the records that it doesn't cover.
ghost use Rattle.std.specs.Prelude.{length};
ghost use Rattle.receiver.specs.State.{Able};
ghost use Rattle.index_loop.specs.Walking.{Walked};

use crate::index;
use console::{BLOCKS, Console, FULL, SIZE};
use house::{Fault, Setup};
use index_loop::{Stop, Task, Walk};
use line_zero::Top;
use std::fs::File;
use std::io::{IsTerminal, Lock};

// Line 0 behind what was read, with so many bytes of lines.
fn top_behind(walk: Walk, size: u64) -> Top
    requires { Able walk.receiver }
{
    let (since, from) = match receiver::pending(walk.receiver) {
        None => (0, 0),
        Some(place) => (place.stamp.number, place.stamp.byte),
    };
    Top {
        covered: walk.record,
        since,
        end: console::begin_of(walk.unread),
        from,
        size,
    }
}

// The lines are safe before line 0 counts them.
fn commit(console: Console<'_>, beside: &File, top: Top) {
    let is_safe = beside.sync_data().is_ok() && index::write_top(beside, top);
    if !is_safe {
        console.say(b"cannot write the index");
    }
}

// How far a long run is, where standard error is a terminal; what is said next takes its place.
fn show(rt: &HostRuntime, done: u64) {
    if !rt.stderr().lock().is_terminal() {
        return;
    }
    let done = done / 1048576;
    let _ = eprint!(rt; "read so far: {done} MiB\r");
}

// Says what was wrong with the recording, and whether what was read can be committed.
fn is_told(console: Console<'_>, stop: Stop, begin: u64) -> bool {
    match stop {
        Stop::More | Stop::End => true,
        Stop::Bad(fault) => {
            console.stop(begin, fault);
            true
        }
        Stop::Unreadable => {
            console.say(b"cannot read the recording");
            false
        }
    }
}

// The recording's end, or what stands in its place, is reached.
fn close(console: Console<'_>, beside: &File, covered: u64, walk: Walk, size: u64)
    requires { Able walk.receiver }
{
    let is_told = is_told(console, walk.stop, console::begin_of(walk.unread));
    if is_told && covered < walk.record {
        commit(console, beside, top_behind(walk, size));
    }
}

// Takes many blocks after many blocks, and appends their lines.
fn onward(
    console: Console<'_>,
    recording: &File,
    beside: &File,
    top: Top,
    first: Walk,
    block: &mut [u8],
    room: &mut [u8],
    out: &mut [u8],
)
    requires { Walked (length block.old) first }
{
    let mut size = top.size;
    let mut walk = first;
    for _ in 0..BLOCKS {
        let task = Task::Index(top.covered);
        walk = index_loop::advance(recording, task, FULL, walk, block, room, out);
        let at = walk.at.min(out.len());
        if !files::write_at(beside, size, &out[..at]) {
            console.say(b"cannot write the index");
            return;
        }
        size = files::sum(size, at as u64);
        if !matches!(walk.stop, Stop::More) {
            close(console, beside, top.covered, walk, size);
            return;
        }
        show(console.rt, walk.unread.gone);
        walk = index_loop::emptied(walk);
    }
}

// The record at which reading begins, and its first byte: that of what is unfinished, or else the first new one.
fn first_of(top: Top) -> (u64, u64) {
    if top.since == 0 {
        return (top.covered, top.end);
    }
    (top.since, top.from)
}

// Bytes behind the index, of a growth that was killed, go.
fn is_trimmed(beside: &File, size: u64) -> bool {
    !files::reaches(beside, files::sum(size, 1)) || files::cut(beside, size)
}

// Grows the index with this line 0.
pub fn from(console: Console<'_>, recording: &File, beside: &File, setup: Setup, top: Top) {
    if !is_trimmed(beside, top.size) {
        console.say(b"cannot write the index");
        return;
    }
    let mut room = [0u8; 32768];
    let Some(receiver) = receiver::open(setup.tp, setup.stream, &room) else {
        console.stop(0, Fault::Limits);
        return;
    };
    let mut block = [0u8; SIZE];
    let mut out = [0u8; 65536];
    let (record, byte) = first_of(top);
    let walk = index_loop::start(receiver, record, byte);
    onward(
        console, recording, beside, top, walk, &mut block, &mut room, &mut out,
    );
}
