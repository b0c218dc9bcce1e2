// The calls on the sender. Each takes the queues as they are lent.
ghost use Rattle.sender.specs.Opening.{Sound, SoundAnswer};
ghost use Rattle.calls.specs.Running.{Fine};

use crate::State;
use crate::text::{freed, put_digest, put_queues};
use console::Console;
use sender::{Refusal, Sender};

// A line of a call that writes no TP.
fn put_line(
    console: Console<'_>,
    out: &mut [u8],
    at: usize,
    name: &[u8],
    number: u8,
    low: &[u8],
    ordinary: &[u8],
    limit: usize,
) -> usize {
    let mut next = block::put(out, freed(console, out, at), name);
    next = block::put_number(out, next, number as u64);
    put_queues(out, next, ordinary, low, limit)
}

fn put_draw(
    console: Console<'_>,
    out: &mut [u8],
    at: usize,
    number: u8,
    tp: &[u8],
    low: &[u8],
    ordinary: &[u8],
    limit: usize,
) -> usize {
    let mut next = block::put(out, freed(console, out, at), b"draw ");
    next = block::put_number(out, next, number as u64);
    next = put_digest(out, next, tp, tp.len());
    put_queues(out, next, ordinary, low, limit)
}

// The sender after a call, and 0; a refusal leaves the earlier one, and gives its number.
fn after(earlier: Sender, a: Result<Sender, Refusal>) -> (Sender, u8)
    requires earlier_sound { Sound earlier }
    requires sound_answer { SoundAnswer a }
    ensures { Sound result.0 }
{
    match a {
        Ok(sender) => (sender, 0),
        Err(k) => (earlier, u8::from(k)),
    }
}

pub fn open(
    console: Console<'_>,
    s: State,
    tp: usize,
    stream: u8,
    piece: usize,
    low: &[u8],
    ordinary: &[u8],
    out: &mut [u8],
) -> State
    requires { Fine s }
    ensures { Fine result }
{
    let State {
        sender,
        receiver,
        limit,
        at,
    } = s;
    let a = sender::open(tp, stream, piece, low, ordinary);
    let (sender, number) = after(sender, a);
    let at = put_line(console, out, at, b"sender ", number, low, ordinary, limit);
    State {
        sender,
        receiver,
        limit,
        at,
    }
}

pub fn offer_ordinary(
    console: Console<'_>,
    s: State,
    content: u8,
    sp: &[u8],
    low: &[u8],
    ordinary: &mut [u8],
    out: &mut [u8],
) -> State
    requires { Fine s }
    ensures { Fine result }
{
    let State {
        sender,
        receiver,
        limit,
        at,
    } = s;
    let a = sender::offer_ordinary(sender, low, ordinary, content, sp);
    let (sender, number) = after(sender, a);
    let at = put_line(console, out, at, b"ordinary ", number, low, ordinary, limit);
    State {
        sender,
        receiver,
        limit,
        at,
    }
}

pub fn offer_low(
    console: Console<'_>,
    s: State,
    content: u8,
    sp: &[u8],
    low: &mut [u8],
    ordinary: &[u8],
    out: &mut [u8],
) -> State
    requires { Fine s }
    ensures { Fine result }
{
    let State {
        sender,
        receiver,
        limit,
        at,
    } = s;
    let a = sender::offer_low(sender, low, ordinary, content, sp);
    let (sender, number) = after(sender, a);
    let at = put_line(console, out, at, b"low ", number, low, ordinary, limit);
    State {
        sender,
        receiver,
        limit,
        at,
    }
}

pub fn draw(
    console: Console<'_>,
    s: State,
    low: &[u8],
    ordinary: &[u8],
    tp: &mut [u8],
    out: &mut [u8],
) -> State
    requires { Fine s }
    ensures { Fine result }
{
    let State {
        sender,
        receiver,
        limit,
        at,
    } = s;
    let a = sender::draw(sender, low, ordinary, tp);
    let (sender, number) = after(sender, a);
    let at = put_draw(console, out, at, number, tp, low, ordinary, limit);
    State {
        sender,
        receiver,
        limit,
        at,
    }
}
