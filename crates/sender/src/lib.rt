// The sender: opening, two offers, and the draw.
#![tactic(auto)]

ghost use Rattle.std.specs.Prelude.{◌≡◌, ◌+◌, length};
ghost use Rattle.sender.specs.Answers.{number, given_by, done, lent};
ghost use Rattle.sender.specs.Opening.{small, opened, Sound, SoundAnswer};
ghost use Rattle.sender.specs.Offering.{ordinary_offered, low_offered};
ghost use Rattle.sender.specs.Drawing.{drew};
ghost use Rattle.sender.specs.Steps.{DrawnOver};

mod checks;
mod complete;
mod eps;
mod ordinary;
mod part;
mod reading;
pub mod words;

use queue::Ring;
use std::marker::Model;

// Document 01's numbers 1 to 5.
#[derive(Clone, Copy)]
pub enum Refusal {
    Limits,
    Content,
    Long,
    Full,
    Buffer,
}

impl From<Refusal> for u8 {
    ghost from_gives = { λ k n. n ≡ number k };

    fn from(k: Refusal) -> u8 {
        match k {
            Refusal::Limits => 1,
            Refusal::Content => 2,
            Refusal::Long => 3,
            Refusal::Full => 4,
            Refusal::Buffer => 5,
        }
    }
}

// What the opening set: P, the stream, F, and the lengths of the two queue buffers. Public as a type only: its fields are private.
#[derive(Clone, Copy)]
pub struct Setting {
    payload: usize,
    stream: usize,
    piece: usize,
    lowspace: usize,
    space: usize,
}

// The two queues, the fill bytes owed, and how many bytes at the ordinary queue's head belong to the EP under way.
#[derive(Clone, Copy)]
pub struct Sender {
    setting: Setting,
    low: Ring,
    ordinary: Ring,
    owed: usize,
    rest: usize,
}

// Every sender is sound: no function asks it. Answers say so all the same, since another crate sees the state alone.
impl Model for Sender {
    ghost use Rattle.sender.specs.State.{State};

    ghost Value = { State };

    ghost use Rattle.sender.specs.Opening.{Sound};
    ghost use Rattle.sender.specs.Fields.{state, fields};

    ghost view = { state };

    ghost invariant = { λ a. Sound (state a) };

    ghost inverse = { fields };
}

#[tactic(auto, unfolding(crate::specs::Opening::small))]
fn is_small(low: usize, ordinary: usize) -> bool
    ensures { result ≡ small low ordinary }
{
    low <= 1048576 && ordinary <= 1048576
}

// Opens a sender over two queue buffers, the low-latency one first.
pub fn open(
    tp: usize,
    stream: u8,
    piece: usize,
    low: &[u8],
    ordinary: &[u8],
) -> Result<Sender, Refusal>
    ensures result_value { given_by result ≡ opened tp stream piece (length low.now) (length ordinary.now) }
    ensures sound_answer { SoundAnswer result }
{
    if !wire::is_allowed(tp, stream, piece) || !is_small(low.len(), ordinary.len()) {
        return Err(Refusal::Limits);
    }
    let setting = Setting {
        payload: tp - 4,
        stream: stream as usize,
        piece,
        lowspace: low.len(),
        space: ordinary.len(),
    };
    let empty = Ring { head: 0, len: 0 };
    Ok(Sender {
        setting,
        low: empty,
        ordinary: empty,
        owed: 0,
        rest: 0,
    })
}

// The buffers' lengths are those of the opening.
#[tactic(auto, unfolding(crate::specs::Answers::lent))]
fn is_lent(g: Setting, low: usize, ordinary: usize) -> bool
    ensures { result ≡ lent g low ordinary }
{
    low == g.lowspace && ordinary == g.space
}

// Offers an ordinary packet: its EPs are queued, or the first refusal of 1 to 4 that holds is given.
pub fn offer_ordinary(
    s: Sender,
    low: &[u8],
    ordinary: &mut [u8],
    content: u8,
    sp: &[u8],
) -> Result<Sender, Refusal>
    ensures ordinary_after { record { given = given_by result; buffer = ordinary.new } ≡ ordinary_offered s low.now ordinary.old content sp.now }
    ensures sound_answer { SoundAnswer result }
{
    let g = s.setting;
    if !is_lent(g, low.len(), ordinary.len()) {
        return Err(Refusal::Limits);
    }
    checks::judged(content, sp, 131072, g.piece, g.space - s.ordinary.len)?;
    let t = eps::put_sp(ordinary, s.ordinary, content, sp, g.piece);
    Ok(Sender { ordinary: t, ..s })
}

// Offers a low-latency packet: one EP is queued, or the first refusal of 1 to 4 that holds is given.
pub fn offer_low(
    s: Sender,
    low: &mut [u8],
    ordinary: &[u8],
    content: u8,
    sp: &[u8],
) -> Result<Sender, Refusal>
    ensures low_after { record { given = given_by result; buffer = low.new } ≡ low_offered s low.old ordinary.now content sp.now }
    ensures sound_answer { SoundAnswer result }
{
    let g = s.setting;
    if !is_lent(g, low.len(), ordinary.len()) {
        return Err(Refusal::Limits);
    }
    // in pieces of 65,535 it is one EP
    checks::judged(content, sp, g.payload - 7, 65535, g.lowspace - s.low.len)?;
    let h = complete::short_header(content, sp.len());
    let t = eps::put_ep(low, s.low, h, sp);
    Ok(Sender { low: t, ..s })
}

// A TP of fill alone: nothing is queued, and nothing owed. Its header says that an EP begins at once.
fn only_fill(s: Sender, tp: &mut [u8]) -> Sender
    requires { (s.low.len + s.ordinary.len + s.owed ≡ 0) × (length tp.old ≡ s.setting.payload + 4) }
    ensures drawn_over { DrawnOver s (record { given = done result; buffer = tp.new }) }
    ensures sound_2 { Sound result }
{
    let owed = ordinary::fill_part(tp, 4);
    let h = wire::tp_header_of(s.setting.stream as u8, false, 0);
    queue::copy_at(tp, 0, &h);
    Sender { owed, rest: 0, ..s }
}

// Fills a TP. The header comes last, since what is behind it says what it says.
fn filled(s: Sender, low: &[u8], ordinary: &[u8], tp: &mut [u8]) -> Result<Sender, Refusal>
    requires { (length low.now ≡ s.setting.lowspace) × (length ordinary.now ≡ s.setting.space) }
    ensures tp_after { record { given = given_by result; buffer = tp.new } ≡ drew s low.now ordinary.now tp.old }
    ensures sound_answer { SoundAnswer result }
{
    let g = s.setting;
    let p = part::low_part(g.payload, low, s.low, tp)?;
    let at = p.at;
    let o = ordinary::ordinary_part(ordinary, s.ordinary, s.owed, tp, at);
    let offset = ordinary::offset_of(at - 4, s.owed + s.rest, g.payload + 4 - at);
    let h = wire::tp_header_of(g.stream as u8, 4 < at, offset);
    queue::copy_at(tp, 0, &h);
    let rest = ordinary::rest_after(ordinary, s.ordinary, s.rest, o.gone);
    Ok(Sender {
        low: p.ring,
        ordinary: o.ring,
        owed: o.owed,
        rest,
        ..s
    })
}

// Draws a TP. The queues are lent as they are, so that only the sender's rings move.
pub fn draw(s: Sender, low: &[u8], ordinary: &[u8], tp: &mut [u8]) -> Result<Sender, Refusal>
    ensures tp_after { record { given = given_by result; buffer = tp.new } ≡ drew s low.now ordinary.now tp.old }
    ensures sound_answer { SoundAnswer result }
{
    let g = s.setting;
    if !is_lent(g, low.len(), ordinary.len()) {
        return Err(Refusal::Limits);
    }
    if s.low.len + s.ordinary.len + s.owed == 0 && tp.len() == g.payload + 4 {
        return Ok(only_fill(s, tp));
    }
    filled(s, low, ordinary, tp)
}
