// Decodes a word with every error of up to four flips, and tallies the answers.
use golay::End;
use std::fmt;

// How many answers of each count of flips, four meaning beyond repair; and a digest of all in order.
#[derive(Clone, Copy, Default)]
pub struct Tally {
    pub counts: [u32; 5],
    pub digest: u64,
}

pub fn mixed(digest: u64, x: u64) -> u64 {
    (digest % 4294967291 * 65599 + x % 4294967296) % 4294967291
}

impl Tally {
    fn raised(self, place: u8, x: u64) -> Tally {
        let at = (place % 5) as usize;
        let mut t = self;
        t.counts[at] = t.counts[at].wrapping_add(1);
        t.digest = mixed(t.digest, x);
        t
    }

    pub fn noted(self, w: u32) -> Tally {
        match golay::decode(w) {
            Some(word) => self.raised(word.flips, word.number as u64 * 8 + word.flips as u64),
            None => self.raised(4, 4),
        }
    }

    pub fn ended(self, b: u8) -> Tally {
        match golay::end_of(b) {
            End::Zeros => self.raised(0, 0),
            End::Ones => self.raised(1, 255),
            End::Neither => self.raised(4, 256),
        }
    }

    // The word, then with its bit `from` flipped and all that follows from that by one flip less, and so on with each later bit.
    pub fn up_to(self, flips: u32, w: u32, from: u32) -> Tally {
        let mut t = self.noted(w);
        if flips == 0 {
            return t;
        }
        for i in from..24 {
            t = t.up_to(flips - 1, w ^ (1 << i), i + 1);
        }
        t
    }
}

impl fmt::Display for Tally {
    fn fmt<W: fmt::Write>(&self, f: &mut fmt::Formatter<W>) -> fmt::Result {
        let [intact, one, two, three, beyond] = self.counts;
        write!(
            f,
            "intact {intact} one {one} two {two} three {three} beyond {beyond} digest {}",
            self.digest
        )
    }
}
