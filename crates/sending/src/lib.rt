// One record in, records out: what the sending program does, but for reading and writing.
#![tactic(auto)]

ghost use Rattle.std.specs.Prelude.{◌≡◌};
ghost use Rattle.sender.specs.Opening.{Sound, SoundAnswer};
ghost use Rattle.sender.specs.Answers.{given_by};
ghost use Rattle.sender.specs.Run.{kept};
ghost use Rattle.sending.specs.Turn.{refused_by, begun, drawn_of, turn_of};

use house::Record;
use sender::{Refusal, Sender};

// The sender, how many bytes of the output block are held, and document 01's number if an offer was refused.
#[derive(Clone, Copy)]
pub struct Turned {
    pub sender: Sender,
    pub at: usize,
    pub refused: Option<u8>,
}

// The output begins with the setup record.
pub fn begin(setup: &[u8], out: &mut [u8]) -> usize
    ensures { record { bytes = out.new; at = result } ≡ begun setup.now out.old }
{
    house::write_record(Record::Setup, setup, out, 0).unwrap_or(0)
}

// Draws a TP into the block, behind its record's head.
fn drawn(s: Sender, low: &[u8], ordinary: &[u8], tp: usize, out: &mut [u8], at: usize) -> Turned
    requires { Sound s }
    ensures refused_after { record { sender = result.sender; block = record { bytes = out.new; at = result.at }; refused = result.refused } ≡ drawn_of s low.now ordinary.now tp out.old at }
    ensures sound { Sound result.sender }
{
    let waits = Turned {
        sender: s,
        at,
        refused: None,
    };
    if out.len() < at || out.len() - at < 8 || out.len() - at - 8 < tp {
        return waits;
    }
    let from = at + 8;
    let end = from + tp;
    let Ok(sender) = sender::draw(s, low, ordinary, &mut out[from..end]) else {
        return waits;
    };
    let head = house::head_of(Record::Packet { length: tp });
    block::put(out, at, &head);
    Turned {
        sender,
        at: end,
        refused: None,
    }
}

// What an offer's answer leaves: a refused one is skipped.
fn offered(s: Sender, answer: Result<Sender, Refusal>, at: usize) -> Turned
    requires s_sound { Sound s }
    requires answer_sound { SoundAnswer answer }
    ensures sender { result.sender ≡ kept s (given_by answer) }
    ensures at { result.at ≡ at }
    ensures refused { result.refused ≡ refused_by (given_by answer) }
    ensures sound { Sound result.sender }
{
    match answer {
        Ok(sender) => Turned {
            sender,
            at,
            refused: None,
        },
        Err(k) => Turned {
            sender: s,
            at,
            refused: Some(u8::from(k)),
        },
    }
}

// What one record does to the sender, its queues and the output block.
pub fn turn(
    s: Sender,
    said: Record,
    sp: &[u8],
    low: &mut [u8],
    ordinary: &mut [u8],
    tp: usize,
    out: &mut [u8],
    at: usize,
) -> Turned
    requires { Sound s }
    ensures refused_after { record { sender = result.sender; low = low.new; ordinary = ordinary.new; block = record { bytes = out.new; at = result.at }; refused = result.refused } ≡ turn_of said s sp.now low.old ordinary.old tp (record { bytes = out.old; at = at }) }
    ensures sound { Sound result.sender }
{
    match said {
        Record::Ordinary { content, .. } => {
            let answer = sender::offer_ordinary(s, low, ordinary, content, sp);
            offered(s, answer, at)
        }
        Record::Low { content, .. } => {
            let answer = sender::offer_low(s, low, ordinary, content, sp);
            offered(s, answer, at)
        }
        Record::Draw => drawn(s, low, ordinary, tp, out, at),
        Record::Setup | Record::Packet { .. } | Record::Gap => Turned {
            sender: s,
            at,
            refused: None,
        },
    }
}
