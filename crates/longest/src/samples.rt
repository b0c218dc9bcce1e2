// A digest of some bytes only, so that it costs little beside what made them.

// Every 512th byte of s, from its fourth on: a TP's fourth is parity, so that its Golay word can't be left out.
pub fn sampled(digest: u64, s: &[u8]) -> u64 {
    let mut d = digest;
    for i in (3..s.len()).step_by(512) {
        d = mixed(d, s[i]);
    }
    d
}

fn mixed(digest: u64, x: u8) -> u64 {
    (digest >> 1 | digest << 63) ^ x as u64
}
