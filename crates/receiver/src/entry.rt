// Where a call takes a transport packet up: its header at the first call, its stage at a later one.
ghost use Rattle.std.specs.Prelude.{◌≡◌, ◌≤◌, length, take, drop};
ghost use Rattle.digits.specs.Digits.{number};
ghost use Rattle.receiver.specs.declared.Find.TheVariants as F;
ghost use Rattle.receiver.specs.declared.Stage.TheVariants.{Fresh};
ghost use Rattle.receiver.specs.declared.entry.Begun.TheVariants as B;
ghost use Rattle.receiver.specs.declared.walk.Phase.TheVariants.{Lost};
ghost use Rattle.receiver.specs.State.{Able};
ghost use Rattle.receiver.specs.Place.{start_of};
ghost use Rattle.receiver.specs.Call.{counted_of, first_call, stage_call};
ghost use Rattle.receiver.specs.Pieces.{top_of, step_of};
ghost use Rattle.receiver.specs.InStages.{Lent, Begins};

use crate::stages::Stamps;
use crate::walk::Phase;
use crate::{Find, Receiver, Stage, Stamp, Step, judge, stages, stamps};
use wire::TpWord;

// With a find of the header; at its low-latency part, if there is one; among ordinary bytes.
#[derive(Clone, Copy)]
pub enum Begun {
    Gives(Step),
    Part { low: bool, offset: usize, at: usize },
    Plain,
}

// A TP's header: of another stream; not to be read, by this notice; or its flag and its offset.
#[derive(Clone, Copy)]
pub enum Top {
    Elsewhere,
    Dropped(u8),
    Says { low: bool, offset: usize },
}

pub fn tp_word(tp: &[u8]) -> u32
    requires { 4 ≤ length tp.now }
    ensures { result ≡ number 0 (take 3 (drop 1 tp.now)) }
{
    digits::from_three(tp[1], tp[2], tp[3])
}

// Out of step, the TP dropped.
fn drop_all(r: Receiver, stamp: Stamp, number: u8) -> Begun
    ensures { result ≡ B.Gives (step_of r Fresh 0 Lost None (F.Notice number) (start_of stamp)) }
{
    let none = judge::emptied(r.walk.kept);
    let find = Find::Notice(number);
    Begun::Gives(stages::step_to(
        r,
        Stage::Fresh,
        0,
        Phase::Lost,
        none,
        find,
        stamps::start(stamp),
    ))
}

// What a TP's header says: 8, 7, 9, or what follows it.
pub fn read_top(stream: u8, tp: &[u8]) -> Top
    requires { 4 ≤ length tp.now }
    ensures { result ≡ top_of stream tp.now }
{
    let b = tp[0];
    if b / 16 != stream {
        return Top::Elsewhere;
    }
    if b % 4 != 0 {
        return Top::Dropped(7);
    }
    match wire::read_tp_word(tp_word(tp)) {
        None => Top::Dropped(9),
        Some(TpWord { low, offset }) => Top::Says { low, offset },
    }
}

// A TP's first call.
fn first(r: Receiver, t: Stamps, tp: &[u8]) -> Begun
    requires { Able r × Lent r 4 tp.now }
    ensures { Begins (first_call r (counted_of r) t tp.now) (counted_of r) t.now tp.now result }
{
    match read_top(r.stream, tp) {
        Top::Elsewhere => {
            let find = Find::Notice(8);
            Begun::Gives(stages::step_same(r, find, stamps::start(t.before)))
        }
        Top::Dropped(number) => drop_all(stages::counted(r), t.now, number),
        Top::Says { low, offset } => Begun::Part { low, offset, at: 4 },
    }
}

pub fn begin(r: Receiver, t: Stamps, tp: &[u8]) -> Begun
    requires { Able r × (length tp.now ≡ r.size) }
    ensures { Begins (stage_call r.stage r (counted_of r) t tp.now) (counted_of r) t.now tp.now result }
{
    let at = r.walk.at;
    match r.stage {
        Stage::Fresh => first(r, t, tp),
        Stage::Low(offset) => Begun::Part {
            low: true,
            offset,
            at,
        },
        Stage::Due(offset) => Begun::Part {
            low: false,
            offset,
            at,
        },
        Stage::Plain => Begun::Plain,
    }
}
