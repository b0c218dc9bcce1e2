// What a word read and a call promise, and an offer and a draw of their answer and buffer, of functions that only hand it on: a
// wrong answer in the place of one is refused by the contract alone.
#![tactic(auto)]

ghost use Rattle.std.specs.Prelude.{◌≡◌};
ghost use Rattle.golay.specs.Answers.{Decodes};
ghost use Rattle.receiver.specs.State.{Able};
ghost use Rattle.receiver.specs.Call.{call_of, Gives};
ghost use Rattle.sender.specs.Answers.{given_by};
ghost use Rattle.sender.specs.Opening.{Sound};
ghost use Rattle.sender.specs.Offering.{ordinary_offered};
ghost use Rattle.sender.specs.Drawing.{drew};

use golay::Word;
use receiver::{Receiver, Step};
use sender::{Refusal, Sender};

pub fn decode(w: u32) -> Option<Word>
    ensures { Decodes w result }
{
    golay::decode(w)
}

pub fn next(r: Receiver, tp: &[u8], room: &mut [u8]) -> Step
    requires { Able r }
    ensures { Gives (call_of r tp.now room.old) result tp.now room.new }
{
    receiver::next(r, tp, room)
}

pub fn offer(
    s: Sender,
    low: &[u8],
    ordinary: &mut [u8],
    content: u8,
    sp: &[u8],
) -> Result<Sender, Refusal>
    requires { Sound s }
    ensures { record { given = given_by result; buffer = ordinary.new } ≡ ordinary_offered s low.now ordinary.old content sp.now }
{
    sender::offer_ordinary(s, low, ordinary, content, sp)
}

pub fn draw(s: Sender, low: &[u8], ordinary: &[u8], tp: &mut [u8]) -> Result<Sender, Refusal>
    requires { Sound s }
    ensures { record { given = given_by result; buffer = tp.new } ≡ drew s low.now ordinary.now tp.old }
{
    sender::draw(s, low, ordinary, tp)
}
