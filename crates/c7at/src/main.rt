// c7at RECORDING RECORD PLACE SORT: what a line of an index is for (R-8 of document 02). A receiver is started at that record, which
// the heads before it lead to, and the first packet of that sort begun at or behind that place is written as a house record.
#![tactic(auto)]

ghost use Rattle.std.specs.Prelude.{length};
ghost use Rattle.index_loop.specs.Walking.{Walked};

mod heads;

use console::{BLOCKS, Console, SIZE};
use heads::Stopped;
use house::{Fault, Setup};
use index_loop::{Stop, Task, Walk};
use jumping::Wanted;
use std::fs::File;

// Says why there is no packet.
fn tell(console: Console<'_>, stop: Stop, begin: u64) {
    match stop {
        Stop::More => {}
        Stop::End => console.say(b"no such packet"),
        Stop::Bad(fault) => console.stop(begin, fault),
        Stop::Unreadable => console.say(b"cannot read the recording"),
    }
}

// Takes many blocks after many blocks, up to the packet.
fn seek(
    console: Console<'_>,
    recording: &File,
    wanted: Wanted,
    first: Walk,
    block: &mut [u8],
    room: &mut [u8],
    out: &mut [u8],
)
    requires { Walked (length block.old) first }
{
    let mut walk = first;
    for _ in 0..BLOCKS {
        walk = index_loop::advance(recording, Task::Seek(wanted), 1, walk, block, room, out);
        if 0 < walk.at {
            console.flush(out, walk.at);
            return;
        }
        if !matches!(walk.stop, Stop::More) {
            tell(console, walk.stop, console::begin_of(walk.unread));
            return;
        }
    }
}

// Starts a receiver before the record that begins at this byte.
fn from(console: Console<'_>, recording: &File, setup: Setup, wanted: Wanted, byte: u64) {
    let mut room = [0u8; 32768];
    let Some(receiver) = receiver::open(setup.tp, setup.stream, &room) else {
        console.stop(0, Fault::Limits);
        return;
    };
    let mut block = [0u8; SIZE];
    let mut out = [0u8; 65536];
    let walk = index_loop::start(receiver, wanted.record.max(1), byte);
    seek(
        console, recording, wanted, walk, &mut block, &mut room, &mut out,
    );
}

// Finds the record, and starts there.
fn jump(console: Console<'_>, recording: &File, wanted: Wanted) {
    let mut head = [0u8; 13];
    let Some(n) = files::read_at(recording, 0, &mut head) else {
        console.say(b"cannot read the recording");
        return;
    };
    let Some(setup) = files::setup_in(console, &head[..n]) else {
        return;
    };
    match heads::walk(recording, wanted.record) {
        Ok(byte) => from(console, recording, setup, wanted, byte),
        Err(Stopped { byte, stop }) => tell(console, stop, byte),
    }
}

// Whether a sort is the low-latency one.
fn is_low(sort: &[u8]) -> Option<bool> {
    match sort {
        b"low" => Some(true),
        b"ordinary" => Some(false),
        _ => None,
    }
}

fn number_of(rt: &HostRuntime, i: usize) -> Option<u64> {
    let mut word = [0u8; 4096];
    files::number_in(files::word(rt, i, &mut word))
}

// What is asked for, if it is asked for rightly.
fn from_words(rt: &HostRuntime) -> Option<Wanted> {
    if !files::has_words(rt, 4) {
        return None;
    }
    let mut sort = [0u8; 4096];
    Some(Wanted {
        record: number_of(rt, 2)?,
        place: number_of(rt, 3)?,
        low: is_low(files::word(rt, 4, &mut sort))?,
    })
}

fn main(rt: HostRuntime) {
    let console = Console {
        rt: &rt,
        program: b"c7at",
    };
    let Some(wanted) = from_words(&rt) else {
        console.say(b"asks for a recording, a record, a place, and low or ordinary");
        return;
    };
    let mut path = [0u8; 4096];
    let Some(recording) = files::open(&rt, files::word(&rt, 1, &mut path)) else {
        console.say(b"cannot open the recording");
        return;
    };
    jump(console, &recording, wanted);
}
