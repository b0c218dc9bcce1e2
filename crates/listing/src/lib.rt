// The listing's lines, and one call of the receiver with the line of its find: what the listing program does, but for
// reading and writing.
#![tactic(auto)]

ghost use Rattle.std.specs.Prelude.{◌≡◌, ◌+◌, ◌≤◌, [], ◌∷◌, ◌++◌, length, nat_le};
ghost use Rattle.block.specs.Block.{put};
ghost use Rattle.block.specs.Decimal.{decimal};
ghost use Rattle.receiver.specs.State.{Able};
ghost use Rattle.receiver.specs.Call.{call_of, Gives};
ghost use Rattle.listing.specs.Lines.{header_line, line_of, behind, rest_of};
ghost use Rattle.listing.specs.Tens.{Kept};

use receiver::{Find, Receiver, Step};

mod tens;

pub use tens::first_ten;

// Ten numbers: the last one, the digits that are the same in all of them, and how many digits each has.
#[derive(Clone, Copy)]
pub struct Ten {
    pub last: u64,
    pub text: [u8; 8],
    pub places: usize,
}

// The ten to keep, and how many bytes of the output block are held.
#[derive(Clone, Copy)]
pub struct Numbered {
    pub ten: Ten,
    pub at: usize,
}

// What a call gave, the ten to keep, and how many bytes of the output block are held.
#[derive(Clone, Copy)]
pub struct Listed {
    pub step: Step,
    pub ten: Ten,
    pub at: usize,
}

// Puts the header line.
pub fn header(out: &mut [u8], at: usize) -> usize
    ensures { record { bytes = out.new; at = result } ≡ put out.old at header_line }
{
    block::put(out, at, b"tp what content bytes\n")
}

// Puts s, where it has room.
fn piece(out: &mut [u8], at: usize, s: &[u8]) -> usize
    requires { at + length s.now ≤ length out.old }
    ensures { record { bytes = out.new; at = result } ≡ put out.old at s.now }
{
    let end = at + s.len();
    out[at..end].copy_from_slice(s);
    end
}

// Puts a line's numbers behind its word.
fn numbers(content: u64, bytes: u64, out: &mut [u8], at: usize) -> usize
    requires { at + 42 ≤ length out.old }
    ensures { record { bytes = out.new; at = result } ≡ put out.old at (decimal content ++ (32 ∷ []) ++ decimal bytes ++ (10 ∷ [])) }
{
    let mut end = block::put_small(out, at, content);
    end = piece(out, end, b" ");
    end = block::put_small(out, end, bytes);
    piece(out, end, b"\n")
}

// Puts a word, and the numbers behind it; one for each word's length, so that no call is needed to copy it.
#[inline(always)]
fn worded<const N: usize>(
    word: &[u8; N],
    content: u64,
    bytes: u64,
    out: &mut [u8],
    at: usize,
) -> usize
    requires { (N ≤ 10) × (at + 52 ≤ length out.old) }
    ensures { record { bytes = out.new; at = result } ≡ put out.old at (behind word.now content bytes) }
{
    let end = piece(out, at, word);
    numbers(content, bytes, out, end)
}

// Puts what the line of a find has behind the TP's number, where the longest has room.
#[inline(always)]
pub fn rest(find: Find, out: &mut [u8], at: usize) -> usize
    requires { at + 52 ≤ length out.old }
    ensures { record { bytes = out.new; at = result } ≡ put out.old at (rest_of find) }
{
    match find {
        Find::Nothing => at,
        Find::Refused => worded(b" notice ", 1, 0, out, at),
        Find::Notice(n) => worded(b" notice ", n as u64, 0, out, at),
        Find::Low {
            content,
            start: _,
            len,
        } => worded(b" low ", content as u64, len as u64, out, at),
        Find::Ordinary { content, len } => {
            worded(b" ordinary ", content as u64, len as u64, out, at)
        }
    }
}

// Puts the line of a find by way of a text of its own.
#[cold]
fn by_text(number: u64, find: Find, out: &mut [u8], at: usize) -> usize
    ensures { record { bytes = out.new; at = result } ≡ put out.old at (decimal number ++ rest_of find) }
{
    let mut text = [0u8; 80];
    let end = block::put_number(&mut text, 0, number);
    let n = rest(find, &mut text, end);
    block::put(out, at, &text[0..n])
}

// Whether the longest line has room.
fn has_room(size: usize, at: usize) -> bool
    ensures { result ≡ nat_le (at + 80) size }
{
    at <= size && 80 <= size - at
}

// Puts the line of a find behind what is held, its TP's number by the ten that is kept. Inlined where it is called, as all of it is
// but for the way by a text, so that a call with a find of one kind asks for no other.
#[inline(always)]
pub fn line_in(held: Numbered, number: u64, find: Find, out: &mut [u8]) -> Numbered
    requires { Kept held.ten }
    ensures kept { Kept result.ten }
    ensures at_after { record { bytes = out.new; at = result.at } ≡ put out.old held.at (line_of number find) }
{
    if let Find::Nothing = find {
        return held;
    }
    if !has_room(out.len(), held.at) {
        let end = by_text(number, find, out, held.at);
        return Numbered { at: end, ..held };
    }
    let begun = tens::put(held.ten, number, out, held.at);
    let end = rest(find, out, begun.at);
    Numbered { at: end, ..begun }
}

// Puts the line of a find.
pub fn line(number: u64, find: Find, out: &mut [u8], at: usize) -> usize
    ensures { record { bytes = out.new; at = result } ≡ put out.old at (line_of number find) }
{
    let held = Numbered {
        ten: first_ten(),
        at,
    };
    line_in(held, number, find, out).at
}

// Asks for the next find of a TP, and puts its line.
pub fn step(
    r: Receiver,
    ten: Ten,
    number: u64,
    tp: &[u8],
    room: &mut [u8],
    out: &mut [u8],
    at: usize,
) -> Listed
    requires able { Able r }
    requires kept { Kept ten }
    ensures gives { Gives (call_of r tp.now room.old) result.step tp.now room.new }
    ensures at_after { record { bytes = out.new; at = result.at } ≡ put out.old at (line_of number result.step.find) }
    ensures kept_2 { Kept result.ten }
{
    let step = receiver::next(r, tp, room);
    let put = line_in(Numbered { ten, at }, number, step.find, out);
    Listed {
        step,
        ten: put.ten,
        at: put.at,
    }
}
