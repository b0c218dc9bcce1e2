// The low-latency part: each LLEP with its end byte, up to one that gives a find.
ghost use Rattle.std.specs.Prelude.{◌≡◌, ◌+◌, ◌≤◌, length, drop};
ghost use Rattle.golay.specs.Answers.{end_of};
ghost use Rattle.receiver.specs.Kind.{kind_of};
ghost use Rattle.receiver.specs.Low.{ended, counting, sized, llep};
ghost use Rattle.receiver.specs.Lows.{gives, gone_by, told_of, repaired_of, passed_of, one_of, lows_of};

use crate::kind::Kind;
use crate::{Find, kind, stride};
use golay::End;
use wire::Header;

// What a walk comes to: the broken place; the part's end; or a find, the total that it carries, its LLEP's place, whether
// another LLEP follows, and the place behind it.
#[derive(Clone, Copy)]
pub enum Lows {
    Broken(usize),
    End(usize),
    Gives {
        find: Find,
        repaired: u64,
        from: usize,
        more: bool,
        end: usize,
    },
}

// What one LLEP comes to: the walk's end, or the place of the next. Neither is a failure, as one side of a Result would be.
#[derive(Clone, Copy)]
pub enum One {
    Stop(Lows),
    More(usize),
}

// The header, with the flips of the end byte counted in.
fn counted(b: u8, header: Header) -> Header
    requires { header.flips ≤ 8 }
    ensures { result ≡ counting b header }
{
    Header {
        flips: header.flips + golay::end_flips(b),
        ..header
    }
}

// By its end byte: the header, and whether another LLEP follows.
fn ends(b: u8, header: Header) -> Option<(Header, bool)>
    ensures { result ≡ ended (end_of b) header }
{
    match golay::end_of(b) {
        End::Zeros => Some((header, false)),
        End::Ones => Some((header, true)),
        End::Neither => None,
    }
}

fn closed(tp: &[u8], at: usize, header: Header) -> Option<(Header, bool)>
    requires { (at + 7 ≤ length tp.now) × (header.flips ≤ 8) }
    ensures { result ≡ sized header (drop at tp.now) }
{
    let size = header.size;
    if tp.len() - at - 7 < size {
        return None;
    }
    let last = at + 6 + size;
    let b = tp[last];
    ends(b, counted(b, header))
}

// The header of the LLEP at `at`, if it isn't broken, and whether another LLEP follows.
pub fn item(tp: &[u8], at: usize) -> Option<(Header, bool)>
    requires { at ≤ length tp.now }
    ensures { result ≡ llep (drop at tp.now) }
{
    if tp.len() - at < 7 {
        return None;
    }
    let header = stride::read_at(tp, at)?;
    closed(tp, at, header)
}

fn gone(more: bool, end: usize) -> One
    ensures { result ≡ gone_by more end }
{
    if more {
        return One::More(end);
    }
    One::Stop(Lows::End(end))
}

fn give(find: Find, repaired: u64, from: usize, more: bool, end: usize) -> One
    ensures { result ≡ gives find repaired from more end }
{
    One::Stop(Lows::Gives {
        find,
        repaired,
        from,
        more,
        end,
    })
}

// The find of an LLEP that isn't broken: fill is silent; a reserved content or a fragment gives 16.
pub fn told(header: Header, at: usize, len: usize) -> Option<Find>
    requires { at + 7 + header.size ≤ len }
    ensures { result ≡ told_of (kind_of header) header at }
{
    match kind::kind_of(header) {
        Kind::Fill => None,
        Kind::Reserved => Some(Find::Notice(16)),
        Kind::Complete => {
            let content = header.content;
            let start = at + 6;
            let len = header.size;
            let find = Find::Low {
                content,
                start,
                len,
            };
            Some(find)
        }
        Kind::First => Some(Find::Notice(16)),
        Kind::Middle => Some(Find::Notice(16)),
        Kind::Last => Some(Find::Notice(16)),
    }
}

// The total that it carries: none but of a packet.
pub fn repaired(header: Header) -> u64
    ensures { result ≡ repaired_of (kind_of header) header }
{
    match kind::kind_of(header) {
        Kind::Complete => header.flips as u64,
        Kind::Fill | Kind::Reserved | Kind::First | Kind::Middle | Kind::Last => 0,
    }
}

fn passed(header: Header, more: bool, at: usize, len: usize) -> One
    requires { at + 7 + header.size ≤ len }
    ensures { result ≡ passed_of (kind_of header) header more at }
{
    let size = header.size;
    let end = at + 7 + size;
    match told(header, at, len) {
        None => gone(more, end),
        Some(find) => give(find, repaired(header), at, more, end),
    }
}

fn single(tp: &[u8], at: usize) -> One
    requires { at ≤ length tp.now }
    ensures { result ≡ one_of (llep (drop at tp.now)) at }
{
    match item(tp, at) {
        None => One::Stop(Lows::Broken(at)),
        Some((header, more)) => passed(header, more, at, tp.len()),
    }
}

// From `start` on, up to the first 00 end byte, the first broken LLEP or the first find.
pub fn walk(tp: &[u8], start: usize) -> Lows
    requires { start ≤ length tp.now }
    ensures { result ≡ lows_of tp.now start }
{
    let mut at = start;
    loop {
        match single(tp, at) {
            One::Stop(lows) => return lows,
            One::More(i) => at = i,
        }
    }
}
