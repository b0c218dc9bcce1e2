// Only tests need this crate.
// The two ends with the longest packets, which the programs' buffers of 32,768 bytes don't hold: second/longest.c.
// The file stdout beside src/ is what the second program prints.
#![tactic(auto)]

mod receiving;
mod samples;
mod sending;

// No input has so many parts: the loop ends for this.
const LAST: u64 = 0x8000000000000000;

fn fill(packet: &mut [u8]) {
    for i in 0..packet.len() {
        packet[i] = (i % 251) as u8;
    }
}

// Two bytes: how many packets.
fn send(rt: &HostRuntime, packet: &[u8], queue: &mut [u8]) -> bool {
    let mut count = [0u8; 2];
    if streams::read_full(rt, &mut count) < 2 {
        return false;
    }
    sending::packets(rt, packet, queue, digits::from_two(count[0], count[1]));
    true
}

// One part of the input; answers whether another may follow.
fn turn(rt: &HostRuntime, packet: &[u8], queue: &mut [u8]) -> bool {
    let mut head = [0u8; 1];
    if streams::read_full(rt, &mut head) < 1 {
        return false;
    }
    match head[0] {
        1 => send(rt, packet, queue),
        2 => {
            receiving::input(rt);
            false
        }
        _ => false,
    }
}

fn main(rt: HostRuntime) {
    let mut packet = [0u8; 131072];
    fill(&mut packet);
    let mut queue = [0u8; 262144];
    for _ in 0..LAST {
        if !turn(&rt, &packet, &mut queue) {
            return;
        }
    }
}
