// Only tests need this crate.
// Makes calls on one sender and one receiver, as a list on standard input tells, and prints a line for each: second/CALLS.md.
#![tactic(auto)]

ghost use Rattle.std.specs.Prelude.{◌≤◌, IfSome};
ghost use Rattle.calls.specs.Running.{Fine};

mod digest;
mod receiving;
mod sending;
mod text;

use console::Console;
use receiver::Receiver;
use sender::Sender;
use text::freed;

// No list has so many entries: the loop ends for this.
const LAST: u64 = 0x8000000000000000;

// Between two calls; `at` bytes of the output block are held.
#[derive(Clone, Copy)]
pub struct State {
    pub sender: Sender,
    pub receiver: Receiver,
    pub limit: usize,
    pub at: usize,
}

// What an entry of the list says.
#[derive(Clone, Copy)]
pub struct Entry {
    pub op: u8,
    pub a: usize,
    pub b: usize,
    pub c: usize,
    pub d: usize,
    pub e: usize,
    pub n: usize,
}

// The number of four bytes at a place of an entry's head.
fn number_at(h: &[u8; 25], at: usize) -> usize
    requires { at ≤ 21 }
{
    digits::from_four(h[at], h[at + 1], h[at + 2], h[at + 3])
}

fn entry_of(h: &[u8; 25]) -> Entry {
    Entry {
        op: h[0],
        a: number_at(h, 1),
        b: number_at(h, 5),
        c: number_at(h, 9),
        d: number_at(h, 13),
        e: number_at(h, 17),
        n: number_at(h, 21),
    }
}

// The calls on the sender; d and e bytes of the queues are lent.
fn to_sender(
    console: Console<'_>,
    s: State,
    entry: Entry,
    sp: &[u8],
    ordinary: &mut [u8],
    low: &mut [u8],
    drawn: &mut [u8],
    out: &mut [u8],
) -> State
    requires { Fine s }
    ensures { Fine result }
{
    let d = entry.d.min(ordinary.len());
    let e = entry.e.min(low.len());
    let content = (entry.a % 256) as u8;
    match entry.op {
        1 => {
            let stream = (entry.b % 256) as u8;
            sending::open(
                console,
                s,
                entry.a,
                stream,
                entry.c,
                &low[..e],
                &ordinary[..d],
                out,
            )
        }
        2 => sending::offer_ordinary(console, s, content, sp, &low[..e], &mut ordinary[..d], out),
        3 => sending::offer_low(console, s, content, sp, &mut low[..e], &ordinary[..d], out),
        _ => {
            let a = entry.a.min(drawn.len());
            sending::draw(console, s, &low[..e], &ordinary[..d], &mut drawn[..a], out)
        }
    }
}

// The calls on the receiver; a bytes of the TP and c of the room are lent.
fn to_receiver(
    console: Console<'_>,
    s: State,
    entry: Entry,
    received: &[u8],
    room: &mut [u8],
    out: &mut [u8],
) -> State
    requires { Fine s }
    ensures { Fine result }
{
    let a = entry.a.min(received.len());
    let c = entry.c.min(room.len());
    match entry.op {
        5 => {
            let stream = (entry.b % 256) as u8;
            receiving::open(console, s, entry.a, stream, &room[..c], out)
        }
        7 => receiving::gap(console, s, out),
        // 11 and 13: all that the TP gives; 12 and 13: what a find carries
        op => receiving::next(
            console,
            s,
            &received[..a],
            op == 11 || op == 13,
            op == 12 || op == 13,
            &mut room[..c],
            out,
        ),
    }
}

// A line with only its name.
fn named(console: Console<'_>, s: State, out: &mut [u8], line: &[u8]) -> State
    requires { Fine s }
    ensures { Fine result }
{
    State {
        at: block::put(out, freed(console, out, s.at), line),
        ..s
    }
}

fn write_to(
    entry: Entry,
    sp: &[u8],
    ordinary: &mut [u8],
    low: &mut [u8],
    room: &mut [u8],
    drawn: &mut [u8],
    received: &mut [u8],
) {
    match entry.a {
        0 => queue::copy_at(ordinary, entry.b, sp),
        1 => queue::copy_at(low, entry.b, sp),
        2 => queue::copy_at(room, entry.b, sp),
        3 => queue::copy_at(drawn, entry.b, sp),
        4 => queue::copy_at(received, entry.b, sp),
        _ => {}
    }
}

fn call(
    console: Console<'_>,
    s: State,
    entry: Entry,
    sp: &[u8],
    ordinary: &mut [u8],
    low: &mut [u8],
    room: &mut [u8],
    drawn: &mut [u8],
    received: &mut [u8],
    out: &mut [u8],
) -> State
    requires { Fine s }
    ensures { Fine result }
{
    if entry.op < 5 {
        return to_sender(console, s, entry, sp, ordinary, low, drawn, out);
    }
    match entry.op {
        8 => {
            write_to(entry, sp, ordinary, low, room, drawn, received);
            named(console, s, out, b"write\n")
        }
        9 => {
            queue::copy_at(received, 0, drawn);
            named(console, s, out, b"hand\n")
        }
        10 => {
            let limited = State {
                limit: entry.a,
                ..s
            };
            named(console, limited, out, b"limit\n")
        }
        _ => to_receiver(console, s, entry, received, room, out),
    }
}

// One entry of the list; one that is cut short, or that the list cannot have, ends it.
fn turn(
    console: Console<'_>,
    s: State,
    ordinary: &mut [u8],
    low: &mut [u8],
    room: &mut [u8],
    drawn: &mut [u8],
    received: &mut [u8],
    buf: &mut [u8],
    out: &mut [u8],
) -> Option<State>
    requires { Fine s }
    ensures { IfSome result Fine }
{
    let mut head = [0u8; 25];
    if streams::read_full(console.rt, &mut head) < 25 {
        return None;
    }
    let entry = entry_of(&head);
    let n = entry.n;
    if entry.op < 1 || 13 < entry.op || buf.len() < n {
        return None;
    }
    if streams::read_full(console.rt, &mut buf[..n]) < n {
        return None;
    }
    Some(call(
        console,
        s,
        entry,
        &buf[..n],
        ordinary,
        low,
        room,
        drawn,
        received,
        out,
    ))
}

fn turns(
    console: Console<'_>,
    first: State,
    ordinary: &mut [u8],
    low: &mut [u8],
    room: &mut [u8],
    drawn: &mut [u8],
    received: &mut [u8],
    buf: &mut [u8],
    out: &mut [u8],
)
    requires { Fine first }
{
    let mut s = first;
    for _ in 0..LAST {
        let at = s.at;
        let Some(next) = turn(console, s, ordinary, low, room, drawn, received, buf, out) else {
            console.flush(out, at);
            return;
        };
        s = next;
    }
}

fn main(rt: HostRuntime) {
    let mut ordinary = [0u8; 1048580];
    let mut low = [0u8; 1048580];
    let mut room = [0u8; 131080];
    let Ok(sender) = sender::open(16, 0, 1, &[], &[]) else {
        return;
    };
    let Some(receiver) = receiver::open(16, 0, &[]) else {
        return;
    };
    let mut drawn = [0u8; 4096];
    let mut received = [0u8; 4096];
    let mut buf = [0u8; 131080];
    let mut out = [0u8; 65536];
    let s = State {
        sender,
        receiver,
        limit: 4294967295,
        at: 0,
    };
    let console = Console {
        rt: &rt,
        program: b"calls",
    };
    turns(
        console,
        s,
        &mut ordinary,
        &mut low,
        &mut room,
        &mut drawn,
        &mut received,
        &mut buf,
        &mut out,
    );
}
