// Line 0 of an index (R-8 of document 02) as text, out and in.
#![tactic(auto)]

ghost use Rattle.std.specs.Prelude.{◌≡◌, ◌++◌, ◌+◌, ◌≤◌, ◌<◌, suc, length, take, drop};
ghost use Rattle.block.specs.Block.{put};
ghost use Rattle.line_zero.specs.Top.{digits20, top_text, digit_of, value_of, number_at, numbers_in, top_in};

// What line 0 says: how many records are covered, the setup counted; the record at which the unfinished EP or held series began, or
// 0; the byte behind the last covered record; the byte at which record `since` begins, or 0; the bytes of the index, line 0 counted.
#[derive(Clone, Copy)]
pub struct Top {
    pub covered: u64,
    pub since: u64,
    pub end: u64,
    pub from: u64,
    pub size: u64,
}

// A number's last 20 decimal digits.
fn twenty(n: u64) -> [u8; 20]
    ensures { result ≡ digits20 n }
{
    let mut digits = [0u8; 20];
    let mut rest = n;
    for i in (0..20).rev() {
        digits[i] = 48 + (rest % 10) as u8;
        rest /= 10;
    }
    digits
}

// Puts a word and a number behind it, where they have room.
fn put_field(out: &mut [u8], at: usize, word: &[u8], n: u64) -> usize
    requires { at + length word.now + 20 ≤ length out.old }
    ensures { record { bytes = out.new; at = result } ≡ put out.old at (word.now ++ digits20 n) }
{
    let end = block::put(out, at, word);
    let digits = twenty(n);
    block::put(out, end, &digits)
}

// Line 0 by value.
fn top_of(top: Top) -> [u8; 133]
    ensures { result ≡ top_text top }
{
    let mut text = [0u8; 133];
    let mut at = put_field(&mut text, 0, b"covered ", top.covered);
    at = put_field(&mut text, at, b" since ", top.since);
    at = put_field(&mut text, at, b" end ", top.end);
    at = put_field(&mut text, at, b" from ", top.from);
    at = put_field(&mut text, at, b" size ", top.size);
    block::put(&mut text, at, b"\n");
    text
}

// Puts line 0.
pub fn put_top(top: Top, out: &mut [u8], at: usize) -> usize
    ensures { record { bytes = out.new; at = result } ≡ put out.old at (top_text top) }
{
    let text = top_of(top);
    block::put(out, at, &text)
}

// A byte as a digit.
fn digit_of(b: u8) -> u64
    ensures { result ≡ digit_of b }
{
    (b as u64 + 2) % 10
}

// The number that at most 19 digits make.
fn value_of(s: &[u8]) -> u64
    requires { length s.now ≤ 19 }
    ensures { result ≡ value_of 0 s.now }
{
    let mut n = 0;
    for b in s {
        n = n * 10 + digit_of(*b);
    }
    n
}

// The number of 20 digits at this place; 0 where 64 bits don't hold it.
fn number_at(s: &[u8], at: usize) -> u64
    requires { at + 20 ≤ length s.now }
    ensures { result ≡ number_at at s.now }
{
    let last = at + 19;
    let front = value_of(&s[at..last]);
    let digit = digit_of(s[last]);
    if (18446744073709551615 - digit) / 10 < front {
        return 0;
    }
    front * 10 + digit
}

fn numbers_in(s: &[u8]) -> Top
    requires { 133 ≤ length s.now }
    ensures { result ≡ numbers_in s.now }
{
    Top {
        covered: number_at(s, 8),
        since: number_at(s, 35),
        end: number_at(s, 60),
        from: number_at(s, 86),
        size: number_at(s, 112),
    }
}

// Reads line 0 at the start of s: its numbers' text must be it.
pub fn read_top(s: &[u8]) -> Option<Top>
    ensures { result ≡ top_in s.now }
{
    if s.len() < 133 {
        return None;
    }
    let top = numbers_in(s);
    let text = top_of(top);
    if &s[0..133] == text.as_slice() {
        return Some(top);
    }
    None
}
