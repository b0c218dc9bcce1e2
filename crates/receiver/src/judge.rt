// What a header, and an EP's end, do to what is kept: 12, 14, 16, 15, or a packet.
ghost use Rattle.std.specs.Prelude.{◌≡◌, ◌≤◌};
ghost use Rattle.wire.specs.Reading.{header_in};
ghost use Rattle.receiver.specs.Kind.{kind_of};
ghost use Rattle.receiver.specs.Low.{tag_of, total_of};
ghost use Rattle.receiver.specs.State.{Roomy};
ghost use Rattle.receiver.specs.Turns.{goes, stops, holds_of, empty_of, meets_of, opened_of, whole_of, fits_of, further_of, admit_of, handed_of, finish_of};

use crate::kind::Kind;
use crate::walk::{Answer, Gain, Kept, Phase, Turn, Walk};
use crate::{Place, kind};
use wire::Header;

// What a packet is known by.
#[derive(Clone, Copy)]
pub struct Tag {
    content: u8,
    repaired: u64,
    began: Place,
}

pub fn stop(at: usize, phase: Phase, began: Place, kept: Option<Kept>, gain: Gain) -> Turn
    ensures { result ≡ stops at phase began kept gain }
{
    Turn::Stop(Answer {
        walk: Walk {
            at,
            phase,
            began,
            kept,
        },
        gain,
    })
}

fn more(at: usize, phase: Phase, began: Place, kept: Option<Kept>) -> Turn
    ensures { result ≡ goes at phase began kept }
{
    Turn::More(Walk {
        at,
        phase,
        began,
        kept,
    })
}

// Nothing kept, assigned over what was: behind a `None` of its own stand bytes of earlier turns, which the compiler then carries along.
pub fn emptied(kept: Option<Kept>) -> Option<Kept>
    ensures { result ≡ None }
{
    let mut none = kept;
    none = None;
    none
}

fn empty(kept: Option<Kept>) -> bool
    ensures { result ≡ empty_of kept }
{
    kept.is_none()
}

fn holds(kept: Option<Kept>, content: u8) -> bool
    ensures { result ≡ holds_of kept content }
{
    match kept {
        None => false,
        Some(k) => k.content == content,
    }
}

fn meets(kind: Kind, kept: Option<Kept>, content: u8) -> bool
    ensures { result ≡ meets_of kind kept content }
{
    match kind {
        Kind::Fill => empty(kept),
        Kind::Reserved => empty(kept),
        Kind::Complete => empty(kept),
        Kind::First => empty(kept),
        Kind::Middle => holds(kept, content),
        Kind::Last => holds(kept, content),
    }
}

// The total of a packet that goes on with this EP: it stops at the most that it can be.
fn joined(repaired: u64, flips: u8) -> u64
    ensures { result ≡ total_of repaired flips }
{
    let more = flips as u64;
    if repaired <= 0xFFFF_FFFF - more {
        return repaired + more;
    }
    0xFFFF_FFFF
}

// Into an EP whose data are kept behind len bytes of this packet, if the room has place for them.
fn fits(at: usize, header: Header, began: Place, tag: Tag, len: usize, cap: usize) -> Turn
    requires { len ≤ cap }
    ensures { result ≡ fits_of at header began (tag_of tag.content tag.repaired tag.began) len cap }
{
    let size = header.size;
    let body = Phase::Body { header, left: size };
    let first = tag.began;
    let kept = Some(Kept {
        content: tag.content,
        repaired: tag.repaired,
        began: first,
        len,
    });
    if size <= cap - len {
        return more(at, body, began, kept);
    }
    stop(at, body, began, emptied(kept), Gain::Notice(15))
}

fn further(at: usize, header: Header, began: Place, kept: Option<Kept>, cap: usize) -> Turn
    requires { Roomy cap kept 0 }
    ensures { result ≡ further_of at header began kept cap }
{
    let size = header.size;
    match kept {
        None => more(at, Phase::Body { header, left: size }, began, kept),
        Some(k) => {
            let tag = Tag {
                content: k.content,
                repaired: joined(k.repaired, header.flips),
                began: k.began,
            };
            fits(at, header, began, tag, k.len, cap)
        }
    }
}

// Into the EP of a header that fits, or that got 14: 16, 15.
pub fn admit(at: usize, header: Header, began: Place, kept: Option<Kept>, cap: usize) -> Turn
    requires { Roomy cap kept 0 }
    ensures { result ≡ admit_of (kind_of header) at header began kept cap }
{
    let size = header.size;
    let flips = header.flips as u64;
    let tag = Tag {
        content: header.content,
        repaired: flips,
        began,
    };
    let inside = Phase::Body { header, left: size };
    match kind::kind_of(header) {
        Kind::Fill => more(at, inside, began, emptied(kept)),
        Kind::Reserved => stop(at, inside, began, emptied(kept), Gain::Notice(16)),
        Kind::Complete => fits(at, header, began, tag, 0, cap),
        Kind::First => fits(at, header, began, tag, 0, cap),
        Kind::Middle => further(at, header, began, kept, cap),
        Kind::Last => further(at, header, began, kept, cap),
    }
}

// A header is whole: 14 if it doesn't fit what is kept, else into its EP.
fn opened(at: usize, header: Header, began: Place, kept: Option<Kept>, cap: usize) -> Turn
    requires { Roomy cap kept 0 }
    ensures { result ≡ opened_of at header began kept cap }
{
    if meets(kind::kind_of(header), kept, header.content) {
        return admit(at, header, began, kept, cap);
    }
    let judged = Phase::Judged(header);
    stop(at, judged, began, emptied(kept), Gain::Notice(14))
}

// Six bytes are there.
pub fn whole(at: usize, word: u64, began: Place, kept: Option<Kept>, cap: usize) -> Turn
    requires { Roomy cap kept 0 }
    ensures { result ≡ whole_of at (header_in word) began kept cap }
{
    match wire::read_header(word) {
        None => stop(at, Phase::Lost, began, emptied(kept), Gain::Notice(12)),
        Some(header) => opened(at, header, began, kept, cap),
    }
}

fn handed(at: usize, began: Place, kept: Option<Kept>) -> Turn
    ensures { result ≡ handed_of at began kept }
{
    let next = Phase::Head { have: 0, word: 0 };
    match kept {
        None => more(at, next, began, kept),
        Some(k) => {
            let packet = Gain::Packet {
                content: k.content,
                repaired: k.repaired,
                began: k.began,
                len: k.len,
            };
            stop(at, next, began, emptied(kept), packet)
        }
    }
}

// The last byte of an EP is read.
pub fn finish(at: usize, header: Header, began: Place, kept: Option<Kept>) -> Turn
    ensures { result ≡ finish_of (kind_of header) at began kept }
{
    let next = Phase::Head { have: 0, word: 0 };
    match kind::kind_of(header) {
        Kind::Fill => more(at, next, began, kept),
        Kind::Reserved => more(at, next, began, kept),
        Kind::Complete => handed(at, began, kept),
        Kind::First => more(at, next, began, kept),
        Kind::Middle => more(at, next, began, kept),
        Kind::Last => handed(at, began, kept),
    }
}
