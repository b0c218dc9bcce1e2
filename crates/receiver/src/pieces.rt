// One piece of a transport packet, with no room: its header; an LLEP; the outset; a header or a run of data.
ghost use Rattle.std.specs.Prelude.{◌≡◌, ◌+◌, ◌≤◌, ◌<◌, length, drop};
ghost use Rattle.receiver.specs.State.{Sound, Settled};
ghost use Rattle.receiver.specs.Low.{llep};
ghost use Rattle.receiver.specs.Turns.{advance_of};
ghost use Rattle.receiver.specs.Outset.{place_of, set_out_of};
ghost use Rattle.receiver.specs.Pieces.{top_of, piece_of, read_of, gave_of, went_of, same_turn, top_turn, drop_turn, llep_turn, out_turn, due_turn, head_role, data_role, role_of, ordinary_turn, on_of};
ghost use Rattle.receiver.specs.Place.{own_of};

use crate::entry::Top;
use crate::walk::{Kept, Phase, Turn, Walk};
use crate::{
    About, Find, Piece, Place, Receiver, Role, Stage, Step, Turned, entry, low, outset, stages,
    stamps, walk,
};
use wire::Header;

fn gave(step: Step, piece: Piece) -> Turned
    ensures { result ≡ gave_of step piece }
{
    Turned {
        receiver: step.receiver,
        piece,
        told: Some(step.find),
        about: step.about,
    }
}

fn went(
    r: Receiver,
    stage: Stage,
    walk: Walk,
    piece: Piece,
    told: Option<Find>,
    about: About,
) -> Turned
    ensures { result ≡ went_of r stage walk piece told about }
{
    Turned {
        receiver: Receiver { stage, walk, ..r },
        piece,
        told,
        about,
    }
}

// A piece without a find.
fn on(r: Receiver, stage: Stage, walk: Walk, piece: Piece) -> Turned
    ensures { result ≡ on_of r stage walk piece }
{
    let about = About {
        repaired: 0,
        at: stamps::start(stamps::own(r.count)),
    };
    went(r, stage, walk, piece, None, about)
}

fn piece_of(from: usize, to: usize, role: Role) -> Piece
    ensures { result ≡ piece_of from to role }
{
    Piece { from, to, role }
}

// Nothing is read.
pub fn same(r: Receiver, number: u8) -> Turned
    ensures { result ≡ same_turn r number }
{
    let find = Find::Notice(number);
    let place = stamps::start(stamps::own(r.count));
    gave(
        stages::step_same(r, find, place),
        piece_of(0, 0, Role::Passed),
    )
}

// The TP's header; the receiver with this TP counted is c.
pub fn first(r: Receiver, tp: &[u8]) -> Turned
    requires { 4 ≤ length tp.now }
    ensures { result ≡ top_turn (top_of r.stream tp.now) r (length tp.now) }
{
    match entry::read_top(r.stream, tp) {
        Top::Elsewhere => same(r, 8),
        Top::Dropped(number) => {
            let c = stages::counted(r);
            let find = Find::Notice(number);
            let place = stamps::start(stamps::own(c.count));
            let step = stages::step_to(c, Stage::Fresh, 0, Phase::Lost, None, find, place);
            gave(step, piece_of(4, tp.len(), Role::Passed))
        }
        Top::Says { low, offset } => {
            let stage = stages::low_stage(low, offset);
            let there = Walk { at: 4, ..r.walk };
            on(
                stages::counted(r),
                stage,
                there,
                piece_of(4, 4, Role::Passed),
            )
        }
    }
}

// Out of step, the rest of the TP dropped.
fn drop_rest(r: Receiver, len: usize, role: Role, number: u8, place: Place) -> Turned
    ensures { result ≡ drop_turn r len role number place }
{
    let w = r.walk;
    let at = w.at;
    let find = Find::Notice(number);
    let step = stages::step_to(r, Stage::Plain, len, Phase::Lost, None, find, place);
    gave(step, piece_of(at, len, role))
}

// An LLEP that isn't broken.
fn behind(r: Receiver, offset: usize, header: Header, more: bool, len: usize) -> Turned
    requires { r.walk.at + 7 + header.size ≤ len }
    ensures { result ≡ llep_turn (Some (header, more)) r offset len }
{
    let w = r.walk;
    let at = w.at;
    let end = at + 7 + header.size;
    let stage = stages::low_stage(more, offset);
    let there = Walk { at: end, ..w };
    let told = low::told(header, at, len);
    let about = About {
        repaired: low::repaired(header),
        at: stamps::of(stamps::own(r.count), at),
    };
    went(
        r,
        stage,
        there,
        piece_of(at, end, Role::Llep(header)),
        told,
        about,
    )
}

// One LLEP with its end byte.
pub fn llep(r: Receiver, offset: usize, tp: &[u8]) -> Turned
    requires { r.walk.at ≤ length tp.now }
    ensures { result ≡ llep_turn (llep (drop r.walk.at tp.now)) r offset (length tp.now) }
{
    let at = r.walk.at;
    match low::item(tp, at) {
        None => {
            let place = stamps::of(stamps::own(r.count), at);
            drop_rest(r, tp.len(), Role::Broken, 11, place)
        }
        Some((header, more)) => behind(r, offset, header, more, tp.len()),
    }
}

// Into the ordinary bytes, of which n stand before the first EP that begins here.
fn set_about(r: Receiver, n: usize, tp: &[u8]) -> Turned
    requires { (r.walk.at + n ≤ length tp.now) × Settled r.walk.phase }
    ensures { result ≡ out_turn (set_out_of r.walk n tp.now) r n (length tp.now) }
{
    let w = r.walk;
    let at = w.at;
    let began = w.began;
    match outset::set_out(w, n, tp) {
        Ok(x) => on(r, Stage::Plain, x, piece_of(at, x.at, Role::Passed)),
        Err(number) => {
            let start = at + n;
            let there = outset::upon(start, tp.len());
            let find = Find::Notice(number);
            let place = outset::lost_at(number, stamps::own(r.count), began);
            let step = stages::step_to(r, Stage::Plain, start, there, None, find, place);
            gave(step, piece_of(at, start, Role::Passed))
        }
    }
}

// The outset.
pub fn due(r: Receiver, offset: usize, tp: &[u8]) -> Turned
    requires { (offset < 2048) × (r.walk.at ≤ length tp.now) × Settled r.walk.phase }
    ensures { result ≡ due_turn (place_of offset r.walk.at (length tp.now)) r tp.now }
{
    match outset::place_of(offset, r.walk.at, tp.len()) {
        Err(number) => {
            let place = stamps::start(stamps::own(r.count));
            drop_rest(r, tp.len(), Role::Passed, number, place)
        }
        Ok(n) => set_about(r, n, tp),
    }
}

fn head_role(phase: Phase) -> Role
    ensures { result ≡ head_role phase }
{
    match phase {
        Phase::Lost => Role::Broken,
        Phase::Head { have: _, word: _ } => Role::Cut,
        Phase::Judged(h) | Phase::Body { header: h, left: _ } => Role::Whole(h),
    }
}

fn data_role(kept: Option<Kept>) -> Role
    ensures { result ≡ data_role kept }
{
    match kept {
        None => Role::Skipped,
        Some(k) => Role::Kept(k.len),
    }
}

fn role_of(phase: Phase, kept: Option<Kept>, behind: Phase) -> Role
    ensures { result ≡ role_of phase kept behind }
{
    match phase {
        Phase::Lost | Phase::Judged(_) => Role::Passed,
        Phase::Head { have: _, word: _ } => head_role(behind),
        Phase::Body { header: _, left: _ } => data_role(kept),
    }
}

fn read(w: Walk, x: Walk) -> Piece
    ensures { result ≡ read_of w x }
{
    piece_of(w.at, x.at, role_of(w.phase, w.kept, x.phase))
}

// A header or what there is of it, or a run of data.
pub fn plain(r: Receiver, tp: &[u8]) -> Turned
    requires { Sound r.limit (length tp.now) r.walk }
    ensures { result ≡ ordinary_turn (advance_of r.limit (own_of r.count) r.walk tp.now) r }
{
    let w = r.walk;
    let stamp = stamps::own(r.count);
    match walk::advance(w, stamp, tp, r.limit) {
        Turn::More(x) => on(r, Stage::Plain, x, read(w, x)),
        Turn::Stop(a) => {
            let x = a.walk;
            gave(stages::tell(r, stamp, a), read(w, x))
        }
    }
}
