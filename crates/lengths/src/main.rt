// Only tests need this crate.
// Document 01's examples 5 and 8: packets at the edge of what a sender takes, and the EPs that they become in its queue.
// The file stdout beside src/ is the document's text in these words, line by line.
#![tactic(auto)]

mod queued;

use sender::{Refusal, Sender};

// A refusal stands as its number.
fn print_offer(rt: &HostRuntime, sort: &[u8], sp: &[u8], a: Result<Sender, Refusal>, queue: &[u8]) {
    streams::print(rt, sort);
    streams::print_number(rt, sp.len() as u64);
    streams::print(rt, b":");
    match a {
        Ok(_) => queued::print_eps(rt, queue),
        Err(k) => {
            streams::print(rt, b" refused ");
            streams::print_number(rt, u8::from(k) as u64);
        }
    }
    streams::print(rt, b"\n");
}

// F = 65,535. The queue has room for 131,072 bytes in three EPs.
fn offer_ordinary(rt: &HostRuntime, sp: &[u8]) {
    let low = [0u8; 16];
    let mut ordinary = [0u8; 131090];
    let Ok(s) = sender::open(2051, 0, 65535, &low, &ordinary) else {
        return;
    };
    let a = sender::offer_ordinary(s, &low, &mut ordinary, 1, sp);
    print_offer(rt, b"ordinary ", sp, a, &ordinary);
}

// TP length 16. The queue has room for more than the longest packet.
fn offer_low(rt: &HostRuntime, sp: &[u8]) {
    let mut low = [0u8; 16];
    let ordinary = [0u8; 16];
    let Ok(s) = sender::open(16, 0, 65535, &low, &ordinary) else {
        return;
    };
    let a = sender::offer_low(s, &mut low, &ordinary, 1, sp);
    print_offer(rt, b"low ", sp, a, &low);
}

// The packet's first n bytes, each lent by a call of its own: parts that one function lends in turn are dear to check.
fn ordinary_of(rt: &HostRuntime, packet: &[u8], n: usize) {
    let end = n.min(packet.len());
    offer_ordinary(rt, &packet[0..end]);
}

fn low_of(rt: &HostRuntime, packet: &[u8], n: usize) {
    let end = n.min(packet.len());
    offer_low(rt, &packet[0..end]);
}

fn main(rt: HostRuntime) {
    let packet = [170u8; 131073];
    // 5: "65,535 bytes give one EP"
    ordinary_of(&rt, &packet, 65535);
    // 5: "65,536 give two", which are pieces of F, the last holding the rest
    ordinary_of(&rt, &packet, 65536);
    // 5: "131,072 give three (the last of 2)"
    ordinary_of(&rt, &packet, 131072);
    // 5: "131,073 give 3"
    ordinary_of(&rt, &packet, 131073);
    // 8: "low-latency of 5 bytes is accepted", as one complete EP
    low_of(&rt, &packet, 5);
    // 8: "of 6 gives 3"
    low_of(&rt, &packet, 6);
}
