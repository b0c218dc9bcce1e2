// TP numbers, ten by ten: all but the last digit are the same, and are kept from line to line.
ghost use Rattle.std.specs.Prelude.{◌≡◌, ◌+◌, ◌≤◌, length};
ghost use Rattle.listing.specs.Tens.{Kept, Begun};

use crate::{Numbered, Ten, piece};

// The numbers below ten.
pub fn first_ten() -> Ten
    ensures { Kept result }
{
    Ten {
        last: 9,
        text: [48, 0, 0, 0, 0, 0, 0, 0],
        places: 1,
    }
}

// Writes all eight bytes of the text and the number's own last digit: the bytes behind that are written over by the line's rest.
fn begin(ten: Ten, number: u64, out: &mut [u8], at: usize) -> usize
    requires kept { Kept ten }
    requires number_le_last { (number ≤ ten.last) × (ten.last ≤ number + 9) }
    requires at_in_bounds { at + 20 ≤ length out.old }
    ensures { Begun out.old at number out.new result }
{
    piece(out, at, &ten.text);
    let last = at + ten.places - 1;
    out[last] = (57 - (ten.last - number)) as u8;
    last + 1
}

// Puts a number, and keeps its ten where that has at most eight digits.
fn put_anew(ten: Ten, number: u64, out: &mut [u8], at: usize) -> Numbered
    requires kept { Kept ten }
    requires at_in_bounds { at + 20 ≤ length out.old }
    ensures { Begun out.old at number out.new result.at × Kept result.ten }
{
    let end = block::put_number(out, at, number);
    if 99999999 < number {
        return Numbered { ten, at: end };
    }
    let left = 57 - out[end - 1];
    Numbered {
        ten: Ten {
            last: number + left as u64,
            text: out[at..at + 8].try_into().unwrap(),
            places: end - at,
        },
        at: end,
    }
}

// Puts a number from the ten that is kept, or from its own.
pub fn put(ten: Ten, number: u64, out: &mut [u8], at: usize) -> Numbered
    requires kept { Kept ten }
    requires at_in_bounds { at + 20 ≤ length out.old }
    ensures { Begun out.old at number out.new result.at × Kept result.ten }
{
    if 9 < ten.last.wrapping_sub(number) {
        return put_anew(ten, number, out, at);
    }
    Numbered {
        ten,
        at: begin(ten, number, out, at),
    }
}
