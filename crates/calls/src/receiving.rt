// The calls on the receiver. Each takes the TP and the room as they are lent.
ghost use Rattle.calls.specs.Running.{Fine};

use crate::State;
use crate::text::{freed, put_digest, put_find};
use console::Console;
use receiver::{About, Find, Step};

// No TP gives so much: the loop ends for this.
const LAST: u64 = 0x8000000000000000;

fn put_opening(
    console: Console<'_>,
    out: &mut [u8],
    at: usize,
    number: u64,
    room: &[u8],
    limit: usize,
) -> usize {
    let mut next = block::put(out, freed(console, out, at), b"receiver ");
    next = block::put_number(out, next, number);
    next = put_digest(out, next, room, limit);
    block::put(out, next, b"\n")
}

pub fn open(
    console: Console<'_>,
    s: State,
    tp: usize,
    stream: u8,
    room: &[u8],
    out: &mut [u8],
) -> State
    requires { Fine s }
    ensures { Fine result }
{
    match receiver::open(tp, stream, room) {
        None => State {
            at: put_opening(console, out, s.at, 1, room, s.limit),
            ..s
        },
        Some(receiver) => State {
            receiver,
            at: put_opening(console, out, s.at, 0, room, s.limit),
            ..s
        },
    }
}

fn put_next<'a>(
    console: Console<'_>,
    out: &mut [u8],
    at: usize,
    find: Find,
    tp: &'a [u8],
    room: &'a [u8],
    limit: usize,
) -> usize {
    let mut next = block::put(out, freed(console, out, at), b"next ");
    next = put_find(out, next, find, receiver::found(tp, room, find));
    next = put_digest(out, next, tp, tp.len());
    next = put_digest(out, next, room, limit);
    block::put(out, next, b"\n")
}

// What a find carries: the TP number and the place at which it began, and the total repaired.
fn put_about(console: Console<'_>, out: &mut [u8], at: usize, about: About) -> usize {
    let place = about.at;
    let mut next = block::put(out, freed(console, out, at), b"about ");
    next = block::put_number(out, next, place.stamp.number);
    next = block::put(out, next, b" ");
    next = block::put_number(out, next, place.at as u64);
    next = block::put(out, next, b" ");
    next = block::put_number(out, next, about.repaired);
    block::put(out, next, b"\n")
}

// The line of a find, and if more is to be told what it carries.
fn put_step<'a>(
    console: Console<'_>,
    out: &mut [u8],
    at: usize,
    step: Step,
    more: bool,
    tp: &'a [u8],
    room: &'a [u8],
    limit: usize,
) -> usize {
    let next = put_next(console, out, at, step.find, tp, room, limit);
    if more {
        return put_about(console, out, next, step.about);
    }
    next
}

// One call, or with `all` each that the TP has.
pub fn next(
    console: Console<'_>,
    first: State,
    tp: &[u8],
    all: bool,
    more: bool,
    room: &mut [u8],
    out: &mut [u8],
) -> State
    requires { Fine first }
    ensures { Fine result }
{
    let mut s = first;
    for _ in 0..LAST {
        let step = receiver::next(s.receiver, tp, room);
        s = State {
            receiver: step.receiver,
            at: put_step(console, out, s.at, step, more, tp, room, s.limit),
            ..s
        };
        if !all || !receiver::lasts(step.find) {
            break;
        }
    }
    s
}

pub fn gap(console: Console<'_>, s: State, out: &mut [u8]) -> State
    requires { Fine s }
    ensures { Fine result }
{
    State {
        receiver: receiver::gap(s.receiver),
        at: block::put(out, freed(console, out, s.at), b"gap\n"),
        ..s
    }
}
