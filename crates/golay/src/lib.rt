// The extended Golay code of IRIG 106-23 Chapter 7, Appendix A, and the low-latency end byte.
#![tactic(auto)]

ghost use Rattle.std.specs.Prelude.{◌≡◌, eqb};
ghost use Rattle.golay.specs.Golay.{code_word, places_to, syndrome};
ghost use Rattle.golay.specs.Answers.{Decodes, Mends, end_byte, end_flips, end_meant};

mod checks;
mod corrections;
pub mod pair;
mod parities;

// A 24-bit word within three flips of a code word: that one's number, how many flips, and a one at each flipped bit.
#[derive(Clone, Copy)]
pub struct Word {
    pub number: u16,
    pub flips: u8,
    pub places: u32,
}

// The same without the places.
#[derive(Clone, Copy)]
pub struct Mended {
    pub number: u16,
    pub flips: u8,
}

// An end byte read: 00, FF, or beyond repair.
#[derive(Clone, Copy)]
pub enum End {
    Zeros,
    Ones,
    Neither,
}

// The code word of the 12 low bits of n.
pub fn encode(n: u16) -> u32
    ensures { result ≡ code_word n }
{
    (n % 4096) as u32 * 4096 + parities::parity(n) as u32
}

// Which of the 24 low bits of w differ from the code word of n.
fn places_to(w: u32, n: u16) -> u32
    ensures { result ≡ places_to w n }
{
    w % 0x100_0000 ^ encode(n)
}

// By which the table of corrections is indexed; 0 for a code word.
pub fn syndrome_of(w: u32) -> u16
    ensures { result ≡ syndrome w }
{
    checks::number((w % 4096) as u16) ^ ((w >> 12) % 4096) as u16
}

// Whether the 24 low bits of w are a code word.
pub fn is_intact(w: u32) -> bool
    ensures { result ≡ eqb (syndrome w) 0 }
{
    checks::number((w % 4096) as u16) == ((w >> 12) % 4096) as u16
}

// What the 24 low bits of w say, whose syndrome is known: the table decides. None if they are beyond repair.
pub fn mend(w: u32, s: u16) -> Option<Mended>
    requires { s ≡ syndrome w }
    ensures { Mends w result }
{
    let entry = corrections::correction(s);
    if entry == 0xFFFF {
        return None;
    }
    let flipped = entry % 4096;
    Some(Mended {
        number: ((w >> 12) % 4096) as u16 ^ flipped,
        flips: (entry / 4096) as u8,
    })
}

// What the 24 low bits of w say; none if they are beyond repair. An intact word leaves at once.
pub fn decode(w: u32) -> Option<Word>
    ensures { Decodes w result }
{
    let s = syndrome_of(w);
    if s == 0 {
        return Some(Word {
            number: ((w >> 12) % 4096) as u16,
            flips: 0,
            places: 0,
        });
    }
    let Mended { number, flips } = mend(w, s)?;
    Some(Word {
        number,
        flips,
        places: places_to(w, number),
    })
}

// What an end byte says.
pub fn end_of(b: u8) -> End
    ensures { end_byte result ≡ end_meant b }
{
    let ones = u8::count_ones(b);
    if ones <= 3 {
        return End::Zeros;
    }
    if ones >= 5 {
        return End::Ones;
    }
    End::Neither
}

// How many bits of an end byte differ from the nearer of 00 and FF.
pub fn end_flips(b: u8) -> u8
    ensures { result ≡ end_flips b }
{
    let ones = u8::count_ones(b);
    if ones <= 4 {
        return ones as u8;
    }
    (8 - ones) as u8
}
