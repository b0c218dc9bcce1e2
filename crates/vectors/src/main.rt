// Only tests need this crate.
// Runs the Golay code over whole tables and prints counts and digests. The file stdout beside src/ is
// what Appendix 7-A's own C code gives (second/appendix.c), so a difference is a fault of the crate.
#![tactic(auto)]

mod flips;

use flips::Tally;

const NUMBERS: [u16; 16] = [
    0x000, 0x001, 0x7FF, 0xFFF, 0x800, 0xAAA, 0x555, 0xC75, 0x0F0, 0x123, 0xA4F, 0x8EB, 0x39C,
    0x6D1, 0xE07, 0xB52,
];

// The code words of all numbers.
fn encoded() -> u64 {
    let mut digest: u64 = 0;
    for n in 0..4096 {
        digest = flips::mixed(digest, golay::encode(n) as u64);
    }
    digest
}

// All end bytes: how many mean 00, how many FF, how many neither.
fn ends() -> Tally {
    let mut t = Tally::default();
    for b in 0..=255 {
        t = t.ended(b);
    }
    t
}

// Words of a linear congruence, which reach every syndrome.
fn random() -> Tally {
    let mut t = Tally::default();
    let mut w: u64 = 1;
    for _ in 0..65536 {
        w = (w % 4294967296 * 1103515245 + 12345) % 4294967296;
        t = t.noted((w / 256) as u32);
    }
    t
}

// A line that cannot be printed ends nothing.
fn main(rt: HostRuntime) {
    let _ = println!(rt; "encode 4096 digest {}", encoded());
    let ends = ends();
    let [zeros, ones, _, _, beyond] = ends.counts;
    let _ = println!(rt;
        "end 00 {zeros} FF {ones} beyond {beyond} digest {}",
        ends.digest
    );
    for n in NUMBERS {
        let tally = Tally::default().up_to(4, golay::encode(n), 0);
        let _ = println!(rt; "decode {n:03X} {tally}");
    }
    let _ = println!(rt; "random 65536 {}", random());
}
