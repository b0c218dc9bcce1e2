// The receiving end: TPs from standard input, and what they give.
ghost use Rattle.receiver.specs.State.{Able};

use crate::samples::sampled;
use receiver::{Find, Receiver, over};
use std::num::wrapping_add_u64;

// No TP gives so much, and no input has so many blocks: the loops end for this.
const LAST: u64 = 0x8000000000000000;

const TP: usize = 2051;

// What was found: ordinary packets, their bytes and a digest of them; all else.
#[derive(Clone, Copy)]
struct Tally {
    packets: u64,
    bytes: u64,
    others: u64,
    digest: u64,
}

#[derive(Clone, Copy)]
struct Run {
    receiver: Receiver,
    tally: Tally,
}

fn counted<'a>(t: Tally, find: Find, tp: &'a [u8], room: &'a [u8]) -> Tally {
    match find {
        Find::Nothing => t,
        Find::Refused | Find::Notice(_) | Find::Low { .. } => Tally {
            others: wrapping_add_u64(t.others, 1),
            ..t
        },
        Find::Ordinary { len, .. } => Tally {
            packets: wrapping_add_u64(t.packets, 1),
            bytes: wrapping_add_u64(t.bytes, len as u64),
            digest: sampled(t.digest, receiver::found(tp, room, find)),
            ..t
        },
    }
}

// All finds of a TP.
fn finds(first: Run, tp: &[u8], room: &mut [u8]) -> Run
    requires { Able first.receiver }
    ensures { Able result.receiver }
{
    let mut run = first;
    for _ in 0..LAST {
        let step = receiver::next(run.receiver, tp, room);
        run = Run {
            receiver: step.receiver,
            tally: counted(run.tally, step.find, tp, room),
        };
        if !receiver::lasts(step.find) {
            break;
        }
    }
    run
}

// One TP.
fn whole(run: Run, tp: &[u8], room: &mut [u8]) -> Run
    requires { Able run.receiver }
    ensures { Able result.receiver }
{
    if over::is_data(run.receiver, tp, room.len()) {
        return Run {
            receiver: over::taken(run.receiver, tp, room),
            ..run
        };
    }
    finds(run, tp, room)
}

// All TPs of a block; bytes that are no whole TP are left out.
fn block(first: Run, tps: &[u8], room: &mut [u8]) -> Run
    requires { Able first.receiver }
    ensures { Able result.receiver }
{
    let mut run = first;
    for tp in tps.chunks_exact(TP) {
        run = whole(run, tp, room);
    }
    run
}

// Blocks of 64 TPs; a shorter one is the last.
fn blocks(rt: &HostRuntime, first: Run, room: &mut [u8]) -> Run
    requires { Able first.receiver }
    ensures { Able result.receiver }
{
    let mut buf = [0u8; 131264];
    let mut run = first;
    for _ in 0..LAST {
        let n = streams::read_full(rt, &mut buf);
        run = block(run, &buf[..n], room);
        if n < 131264 {
            break;
        }
    }
    run
}

// What is left of the input is TPs.
pub fn input(rt: &HostRuntime) {
    let mut room = [0u8; 131072];
    let Some(receiver) = receiver::open(TP, 5, &room) else {
        return;
    };
    let tally = Tally {
        packets: 0,
        bytes: 0,
        others: 0,
        digest: 0,
    };
    let t = blocks(rt, Run { receiver, tally }, &mut room).tally;
    let _ = println!(rt;
        "received {} bytes {} others {} digest {}",
        t.packets, t.bytes, t.others, t.digest
    );
}
