// What an EP is to reassembly.
ghost use Rattle.std.specs.Prelude.{◌≡◌};
ghost use Rattle.receiver.specs.Kind.{kind_of, piece_of};

use wire::{Header, Sort};

#[derive(Clone, Copy)]
pub enum Kind {
    Fill,
    Reserved,
    Complete,
    First,
    Middle,
    Last,
}

fn piece_of(fragment: u8, complete: Kind, first: Kind) -> Kind
    ensures { result ≡ piece_of fragment complete first }
{
    match fragment {
        0 => complete,
        1 => first,
        2 => Kind::Middle,
        _ => Kind::Last,
    }
}

pub fn kind_of(h: Header) -> Kind
    ensures { result ≡ kind_of h }
{
    match wire::sort_of(h.content) {
        Sort::Fill => Kind::Fill,
        Sort::Known => piece_of(h.fragment, Kind::Complete, Kind::First),
        Sort::Reserved => piece_of(h.fragment, Kind::Reserved, Kind::Reserved),
    }
}
