// One record of a script in, the same record with its Chapter 11 packet composed out: what c7pack does, but for reading and writing.
#![tactic(auto)]

ghost use Rattle.std.specs.Prelude.{◌≡◌};
ghost use Rattle.packing.specs.Packing.{is_chapter11, of_length, recorded, turn_of};

use chapter11::Refusal;
use house::Record;

// How many bytes of the output block are held, and why the packet was refused, if it was.
#[derive(Clone, Copy)]
pub struct Packed {
    pub at: usize,
    pub refused: Option<Refusal>,
}

fn is_chapter11(said: Record) -> bool
    ensures { result ≡ is_chapter11 said }
{
    match said {
        Record::Ordinary { content, .. } => content == 3,
        Record::Low { content, .. } => content == 3,
        _ => false,
    }
}

// The record with other data.
fn of_length(said: Record, n: usize) -> Record
    ensures { result ≡ of_length said n }
{
    match said {
        Record::Ordinary { content, .. } => Record::Ordinary { content, length: n },
        Record::Low { content, .. } => Record::Low { content, length: n },
        _ => said,
    }
}

// Puts the record behind what the block holds, and answers how much it holds then.
pub fn put_record(said: Record, data: &[u8], out: &mut [u8], at: usize) -> usize
    ensures { record { bytes = out.new; at = result } ≡ recorded said «data».now (record { bytes = out.old; at = at }) }
{
    house::write_record(said, data, out, at).unwrap_or(at)
}

// What one record becomes; sp is a buffer for the source packet.
pub fn turn(said: Record, data: &[u8], sp: &mut [u8], out: &mut [u8], at: usize) -> Packed
    ensures { record { sp = sp.new; block = record { bytes = out.new; at = result.at }; refused = result.refused } ≡ turn_of said «data».now sp.old (record { bytes = out.old; at = at }) }
{
    if !is_chapter11(said) {
        return Packed {
            at: put_record(said, data, out, at),
            refused: None,
        };
    }
    match chapter11::compose(data, sp) {
        Err(k) => Packed {
            at,
            refused: Some(k),
        },
        Ok(n) => Packed {
            at: put_record(of_length(said, n), &sp[..n], out, at),
            refused: None,
        },
    }
}
