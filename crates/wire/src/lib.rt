// EP header and TP header: numbers to bytes, and back from any maker's bytes.
#![tactic(auto)]

ghost use Rattle.std.specs.Prelude.{◌≡◌, eqb};
ghost use Rattle.wire.specs.Wire.{word, header, offset_number, tp_header};
ghost use Rattle.golay.specs.Answers.{reading};
ghost use Rattle.golay.specs.Golay.{code_word, high, syndrome};
ghost use Rattle.wire.specs.Reading.{fields_of, header_from, header_in, intact_in, tp_number_in, tp_word_from, tp_word_of, sort_of};

mod limits;

pub use limits::{is_allowed, is_link};

// What a header says, and how many bits were repaired in it.
#[derive(Clone, Copy)]
pub struct Header {
    pub content: u8,
    pub fragment: u8,
    pub size: usize,
    pub flips: u8,
}

// What a TP's Golay word says.
#[derive(Clone, Copy)]
pub struct TpWord {
    pub low: bool,
    pub offset: usize,
}

#[derive(Clone, Copy)]
pub enum Sort {
    Fill,
    Known,
    Reserved,
}

fn word_of(n: u16) -> [u8; 3]
    ensures { result ≡ word n }
{
    digits::digits_of(golay::encode(n) as u64)
}

// An EP header; of content and fragment the bits that it has place for.
pub fn header_of(content: u8, fragment: u8, size: u16) -> [u8; 6]
    ensures { result ≡ header content fragment size }
{
    let pair = golay::pair::encode_pair(
        (content % 16) as u16 * 64 + (fragment % 4) as u16 * 16 + size / 4096 % 16,
        size % 4096,
    );
    let a: [u8; 3] = digits::digits_of(pair.first as u64);
    let b: [u8; 3] = digits::digits_of(pair.second as u64);
    [a[0], a[1], a[2], b[0], b[1], b[2]]
}

fn offset_number(low: bool, offset: u16) -> u16
    ensures { result ≡ offset_number low offset }
{
    if low {
        return 2048 + offset % 2048;
    }
    offset % 2048
}

// A TP header; of stream and offset the bits that it has place for.
pub fn tp_header_of(stream: u8, low: bool, offset: u16) -> [u8; 4]
    ensures { result ≡ tp_header stream low offset }
{
    let w = word_of(offset_number(low, offset));
    [stream % 16 * 16, w[0], w[1], w[2]]
}

fn header_from(a: u16, b: u16, flips: u8) -> Header
    ensures { result ≡ fields_of a b flips }
{
    Header {
        content: (a / 64 % 16) as u8,
        fragment: (a / 16 % 4) as u8,
        size: (a % 16) as usize * 4096 + b as usize,
        flips,
    }
}

// The header that two intact words hold.
fn header_in(a: u32, b: u32) -> Header
    ensures { result ≡ fields_of (high a) (high b) 0 }
{
    header_from((a / 4096 % 4096) as u16, (b / 4096 % 4096) as u16, 0)
}

// The header that two words hold, whose syndromes are known; none if one is beyond repair.
fn mended(a: u32, s: u16, b: u32, t: u16) -> Option<Header>
    requires { (s ≡ syndrome a) × (t ≡ syndrome b) }
    ensures { result ≡ header_from (reading a) (reading b) }
{
    let x = golay::mend(a, s)?;
    let y = golay::mend(b, t)?;
    Some(header_from(x.number, y.number, x.flips + y.flips))
}

// The EP header that six bytes, as a number, hold, if both its words are intact.
pub fn read_intact(bytes: u64) -> Option<Header>
    ensures { result ≡ intact_in bytes }
{
    let a = (bytes / 0x100_0000 % 0x100_0000) as u32;
    let b = (bytes % 0x100_0000) as u32;
    if golay::is_intact(a) && golay::is_intact(b) {
        return Some(header_in(a, b));
    }
    None
}

// The EP header that six bytes, as a number, hold; none if one of its words is beyond repair. Two intact words leave at once.
pub fn read_header(bytes: u64) -> Option<Header>
    ensures { result ≡ header_in bytes }
{
    let a = (bytes / 0x100_0000 % 0x100_0000) as u32;
    let b = (bytes % 0x100_0000) as u32;
    let s = golay::syndrome_of(a);
    let t = golay::syndrome_of(b);
    if s == 0 && t == 0 {
        return Some(header_in(a, b));
    }
    mended(a, s, b, t)
}

fn tp_word_from(number: u16) -> TpWord
    ensures { result ≡ tp_word_from number }
{
    TpWord {
        low: 2048 <= number,
        offset: (number % 2048) as usize,
    }
}

// The low-latency flag and the offset that three bytes, as a number, hold; none if they are beyond repair. An intact word leaves at
// once.
pub fn read_tp_word(bytes: u32) -> Option<TpWord>
    ensures { result ≡ tp_word_of (tp_number_in bytes) }
{
    let s = golay::syndrome_of(bytes);
    if s == 0 {
        return Some(tp_word_from((bytes / 4096 % 4096) as u16));
    }
    let x = golay::mend(bytes, s)?;
    Some(tp_word_from(x.number))
}

// The code word of 2047: no low-latency part, and no EP begins.
pub const NO_START: u32 = 0x7F_F38A;

// Whether three bytes, as a number, are that word.
pub fn says_no_start(bytes: u32) -> bool
    ensures { result ≡ eqb bytes (code_word 2047) }
{
    bytes == NO_START
}

pub fn sort_of(content: u8) -> Sort
    ensures { result ≡ sort_of content }
{
    match content {
        0 => Sort::Fill,
        1..=6 => Sort::Known,
        _ => Sort::Reserved,
    }
}
