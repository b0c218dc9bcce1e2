// A receiver as words that anyone may keep, and back: words of none that can be called, or outside an opening's limits, are refused.
ghost use Rattle.std.specs.Prelude.{◌≡◌, true, ◌&&◌, ◌||◌, leb, ltb, eqb, ◌+◌, ◌%◌, ◌<◌};
ghost use Rattle.receiver.specs.Words.{stage_words, header_words, head_words, phase_words, kept_words, words_of, stage_in, header_from, phase_in, place_in, kept_in, receiver_in, openedb, begunb, stagedb, roomyb, below, phasedb, left_in, fitb, datalessb, bareb, of_words, HeaderBytes, PhaseBytes, KeptBytes, Bytes, FitIf};
ghost use Rattle.receiver.specs.InSeries.{SeriesAs};

pub use crate::swift::Swift;
use crate::walk::{Kept, Phase, Walk};
use crate::{Place, Receiver, Stage, Stamp, series, swift};
use wire::Header;

pub fn wide(b: u8) -> u64
    ensures { (result ≡ b) × (b < 256) }
{
    b as u64
}

fn narrow(w: u64) -> u8
    ensures { result ≡ w % 256 }
{
    (w % 256) as u8
}

fn stage_words(s: Stage) -> [u64; 2]
    ensures { result ≡ stage_words s }
{
    match s {
        Stage::Fresh => [0, 0],
        Stage::Low(offset) => [1, offset as u64],
        Stage::Due(offset) => [2, offset as u64],
        Stage::Plain => [3, 0],
    }
}

fn head_words(have: usize, word: u64, began: Place) -> [u64; 9]
    ensures { result ≡ head_words have word began }
{
    if have == 0 {
        return [1, 0, word, 0, 0, 0, 0, 0, 0];
    }
    let t = began.stamp;
    [
        1,
        have as u64,
        word,
        0,
        0,
        0,
        t.number,
        t.byte,
        began.at as u64,
    ]
}

fn header_words(sort: u64, h: Header, left: usize, began: Place) -> [u64; 9]
    ensures { (result ≡ header_words sort h left began) × HeaderBytes h }
{
    let t = began.stamp;
    [
        sort,
        wide(h.content),
        wide(h.fragment),
        h.size as u64,
        wide(h.flips),
        left as u64,
        t.number,
        t.byte,
        began.at as u64,
    ]
}

fn phase_words(p: Phase, began: Place) -> [u64; 9]
    ensures { (result ≡ phase_words p began) × PhaseBytes p }
{
    match p {
        Phase::Lost => [0, 0, 0, 0, 0, 0, 0, 0, 0],
        Phase::Head { have, word } => head_words(have, word, began),
        Phase::Judged(h) => header_words(2, h, 0, began),
        Phase::Body { header, left } => header_words(3, header, left, began),
    }
}

fn kept_words(k: Option<Kept>) -> [u64; 7]
    ensures { (result ≡ kept_words k) × KeptBytes k }
{
    match k {
        None => [0, 0, 0, 0, 0, 0, 0],
        Some(k) => {
            let t = k.began.stamp;
            [
                1,
                wide(k.content),
                k.repaired,
                k.len as u64,
                t.number,
                t.byte,
                k.began.at as u64,
            ]
        }
    }
}

pub fn words_of(r: Receiver) -> [u64; 23]
    ensures { (result ≡ words_of r) × Bytes r }
{
    let w = r.walk;
    let s = stage_words(r.stage);
    let p = phase_words(w.phase, w.began);
    let k = kept_words(w.kept);
    [
        r.size as u64,
        wide(r.stream),
        r.limit as u64,
        r.count,
        w.at as u64,
        s[0],
        s[1],
        p[0],
        p[1],
        p[2],
        p[3],
        p[4],
        p[5],
        p[6],
        p[7],
        p[8],
        k[0],
        k[1],
        k[2],
        k[3],
        k[4],
        k[5],
        k[6],
    ]
}

fn stage_in(sort: u64, offset: u64) -> Stage
    ensures { result ≡ stage_in sort offset }
{
    match sort {
        0 => Stage::Fresh,
        1 => Stage::Low(offset as usize),
        2 => Stage::Due(offset as usize),
        _ => Stage::Plain,
    }
}

fn header_in(a: u64, b: u64, c: u64, d: u64) -> Header
    ensures { result ≡ header_from a b c d }
{
    Header {
        content: narrow(a),
        fragment: narrow(b),
        size: c as usize,
        flips: narrow(d),
    }
}

fn phase_in(sort: u64, a: u64, b: u64, c: u64, d: u64, left: u64) -> Phase
    ensures { result ≡ phase_in sort a b c d left }
{
    match sort {
        0 => Phase::Lost,
        1 => Phase::Head {
            have: a as usize,
            word: b,
        },
        2 => Phase::Judged(header_in(a, b, c, d)),
        _ => Phase::Body {
            header: header_in(a, b, c, d),
            left: left as usize,
        },
    }
}

fn place_in(number: u64, byte: u64, at: u64) -> Place
    ensures { result ≡ place_in number byte at }
{
    Place {
        stamp: Stamp { number, byte },
        at: at as usize,
    }
}

fn kept_in(sort: u64, content: u64, repaired: u64, len: u64, began: Place) -> Option<Kept>
    ensures { result ≡ kept_in sort content repaired len began }
{
    if sort == 0 {
        return None;
    }
    Some(Kept {
        content: narrow(content),
        repaired,
        began,
        len: len as usize,
    })
}

// The receiver that words would be those of, if they are any's.
pub fn receiver_in(w: &[u64; 23]) -> Receiver
    ensures { result ≡ receiver_in w.now }
{
    let stage = stage_in(w[5], w[6]);
    let phase = phase_in(w[7], w[8], w[9], w[10], w[11], w[12]);
    let began = place_in(w[13], w[14], w[15]);
    let first = place_in(w[20], w[21], w[22]);
    let kept = kept_in(w[16], w[17], w[18], w[19], first);
    Receiver {
        size: w[0] as usize,
        stream: narrow(w[1]),
        limit: w[2] as usize,
        count: w[3],
        stage,
        walk: Walk {
            at: w[4] as usize,
            phase,
            began,
            kept,
        },
    }
}

// Within the limits of an opening, and the place within the TP.
#[tactic(auto, unfolding(crate::specs::Words::openedb))]
fn is_opened(size: u64, stream: u64, limit: u64, at: u64) -> bool
    ensures { result ≡ openedb size stream limit at }
{
    16 <= size && size <= 2051 && stream <= 15 && limit <= 131072 && at <= size
}

fn is_begun(offset: u64, at: u64) -> bool
    ensures { result ≡ begunb offset at }
{
    offset <= 2047 && 4 <= at
}

fn is_staged(sort: u64, offset: u64, at: u64) -> bool
    ensures { result ≡ stagedb sort offset at }
{
    if sort == 0 {
        return true;
    }
    if sort == 3 {
        return true;
    }
    if 3 < sort {
        return false;
    }
    is_begun(offset, at)
}

fn is_within(len: u64, n: u64, cap: u64) -> bool
    ensures { result ≡ leb (len + n) cap }
{
    len <= cap && n <= cap - len
}

fn is_roomy(cap: u64, sort: u64, len: u64, n: u64) -> bool
    ensures { result ≡ roomyb cap sort len n }
{
    if sort == 0 {
        return true;
    }
    if sort != 1 {
        return false;
    }
    is_within(len, n, cap)
}

// Above every number of so many bytes; of a header's six or more there is none.
fn bound(have: u64) -> u64
    ensures { result ≡ below have }
{
    match have {
        0 => 1,
        1 => 0x100,
        2 => 0x1_0000,
        3 => 0x100_0000,
        4 => 0x1_0000_0000,
        5 => 0x100_0000_0000,
        _ => 0,
    }
}

// An EP's data may be at their end only among ordinary bytes.
fn is_under_way(stage: u64, left: u64) -> bool
    ensures { result ≡ (eqb stage 3 || ltb 0 left) }
{
    stage == 3 || 0 < left
}

fn is_phased(stage: u64, sort: u64, a: u64, b: u64, left: u64) -> bool
    ensures { result ≡ phasedb stage sort a b left }
{
    if sort == 0 {
        return true;
    }
    if sort == 1 {
        return b < bound(a);
    }
    if 3 < sort {
        return false;
    }
    if sort == 2 {
        return stage == 3;
    }
    is_under_way(stage, left)
}

// The bytes that an EP under way still brings.
fn left_in(sort: u64, left: u64) -> u64
    ensures { result ≡ left_in sort left }
{
    if sort < 3 {
        return 0;
    }
    left
}

#[tactic(auto, unfolding(crate::specs::Words::fitb))]
fn is_fit(w: &[u64; 23]) -> bool
    ensures { result ≡ fitb w.now }
{
    is_opened(w[0], w[1], w[2], w[4])
        && is_staged(w[5], w[6], w[4])
        && is_phased(w[5], w[7], w[8], w[9], w[12])
        && is_roomy(w[2], w[16], w[19], left_in(w[7], w[12]))
}

// Out of step, between two EPs or in a header.
fn is_dataless(sort: u64, have: u64, word: u64) -> bool
    ensures { result ≡ datalessb sort have word }
{
    if sort == 1 {
        return word < bound(have);
    }
    sort == 0
}

// Whether words of an opened receiver have nothing kept and no data under way, as most calls find them; they fit then.
#[tactic(auto, unfolding(crate::specs::Words::bareb))]
fn is_bare(w: &[u64; 23]) -> bool
    ensures { result ≡ bareb w.now }
{
    w[16] == 0
        && is_dataless(w[7], w[8], w[9])
        && is_staged(w[5], w[6], w[4])
        && is_opened(w[0], w[1], w[2], w[4])
}

// The same as `is_fit`; bare words leave at once.
pub fn can_be_called(w: &[u64; 23]) -> bool
    ensures { result ≡ fitb w.now }
{
    is_bare(w) || is_fit(w)
}

// The receiver whose words these are.
pub fn of_words(w: &[u64; 23]) -> Option<Receiver>
    ensures { (result ≡ of_words w.now) × FitIf result }
{
    if is_fit(w) {
        return Some(receiver_in(w));
    }
    None
}

// The next find of the TP of words that fit; or the same call, from further on, is left to `receiver::next`.
pub fn next(w: &mut [u64; 23], tp: &[u8], room: &mut [u8]) -> Option<Swift>
    requires { fitb w.old ≡ true }
    ensures { SeriesAs result (receiver_in w.old) tp.now room.old w.new room.new }
{
    match swift::next(w, tp, room) {
        Some(swift) => Some(swift),
        None => series::next(w, tp, room),
    }
}
