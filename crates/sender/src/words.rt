// A sender as eleven words that anyone may keep, and back. An array of words, since the C interface keeps a state as such.
ghost use Rattle.std.specs.Prelude.{◌≡◌, set};
ghost use Rattle.sender.specs.Answers.{given_by};
ghost use Rattle.sender.specs.Opening.{SoundAnswer};
ghost use Rattle.sender.specs.Words.{words_of, drawn_in, sound_setting, sound_ring, sound, of_words, OfItsWords};

use crate::{Refusal, Sender, Setting};
use queue::Ring;

#[tactic(auto, unfolding(crate::specs::Words::words_of))]
pub fn words_of(s: Sender) -> [u64; 11]
    ensures { result ≡ words_of s }
{
    [
        s.setting.payload as u64,
        s.setting.stream as u64,
        s.setting.piece as u64,
        s.setting.lowspace as u64,
        s.setting.space as u64,
        s.low.head as u64,
        s.low.len as u64,
        s.ordinary.head as u64,
        s.ordinary.len as u64,
        s.owed as u64,
        s.rest as u64,
    ]
}

// Puts what an ordinary offer changes of the words: the length of its ring. Apart from put_low, since a const for the place and a
// parameter for the ring would say less than this one line.
pub fn put_ordinary(w: &mut [u64; 11], s: Sender)
    ensures { w.new ≡ set w.old 8 s.ordinary.len }
{
    w[8] = s.ordinary.len as u64;
}

// Puts what a low-latency offer changes of them: the length of its ring.
pub fn put_low(w: &mut [u64; 11], s: Sender)
    ensures { w.new ≡ set w.old 6 s.low.len }
{
    w[6] = s.low.len as u64;
}

// Puts what a draw changes of them: all but the setting's.
pub fn put_drawn(w: &mut [u64; 11], s: Sender)
    ensures { w.new ≡ drawn_in w.old s }
{
    w[5] = s.low.head as u64;
    put_low(w, s);
    w[7] = s.ordinary.head as u64;
    put_ordinary(w, s);
    w[9] = s.owed as u64;
    w[10] = s.rest as u64;
}

#[tactic(auto, unfolding(crate::specs::Words::sound_setting))]
fn is_sound_setting(g: Setting) -> bool
    ensures { result ≡ sound_setting g }
{
    12 <= g.payload && g.payload <= 2047 && g.stream <= 15 && 1 <= g.piece && g.piece <= 65535
}

#[tactic(auto, unfolding(crate::specs::Words::sound_ring))]
fn is_sound_ring(q: Ring, space: usize) -> bool
    ensures { result ≡ sound_ring q space }
{
    space <= 1048576 && q.head <= space && q.len <= space
}

#[tactic(auto, unfolding(crate::specs::Words::sound))]
fn is_sound(setting: Setting, low: Ring, ordinary: Ring, owed: usize, rest: usize) -> bool
    ensures { result ≡ sound (record { setting = setting; low = low; ordinary = ordinary; owed = owed; rest = rest }) }
{
    is_sound_setting(setting)
        && is_sound_ring(low, setting.lowspace)
        && is_sound_ring(ordinary, setting.space)
        && owed <= 5
        && rest <= ordinary.len
}

// The sender whose words these are.
pub fn of_words(w: [u64; 11]) -> Result<Sender, Refusal>
    ensures result_value { given_by result ≡ of_words w }
    ensures sound_answer { SoundAnswer result }
    ensures of_its_words { OfItsWords w result }
{
    let setting = Setting {
        payload: w[0] as usize,
        stream: w[1] as usize,
        piece: w[2] as usize,
        lowspace: w[3] as usize,
        space: w[4] as usize,
    };
    let low = Ring {
        head: w[5] as usize,
        len: w[6] as usize,
    };
    let ordinary = Ring {
        head: w[7] as usize,
        len: w[8] as usize,
    };
    let owed = w[9] as usize;
    let rest = w[10] as usize;
    if !is_sound(setting, low, ordinary, owed, rest) {
        return Err(Refusal::Limits);
    }
    Ok(Sender {
        setting,
        low,
        ordinary,
        owed,
        rest,
    })
}
