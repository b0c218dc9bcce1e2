// The protected fields of a Chapter 11 source packet: four Golay words.
ghost use Rattle.std.specs.Prelude.{◌≡◌, ◌+◌, ◌≤◌, length, Some};
ghost use Rattle.chapter11.specs.Source.{protected, number_at, fields_from, fields_of};

use crate::Fields;

// The fields as they are sent, of each number the bits that it has place for.
pub fn protect(fields: Fields) -> [u8; 12]
    ensures { result ≡ protected fields }
{
    let channel = fields.channel;
    let size = fields.size;
    let upper = (fields.trailer % 32 * 128 + size / 4096 % 128) as u16;
    let first = golay::pair::encode_pair((channel / 4096 % 16) as u16, (channel % 4096) as u16);
    let last = golay::pair::encode_pair(upper, (size % 4096) as u16);
    let a = digits::digits_of::<3>(first.first as u64);
    let b = digits::digits_of::<3>(first.second as u64);
    let c = digits::digits_of::<3>(last.first as u64);
    let d = digits::digits_of::<3>(last.second as u64);
    [
        a[0], a[1], a[2], b[0], b[1], b[2], c[0], c[1], c[2], d[0], d[1], d[2],
    ]
}

// The number of the Golay word at index i; none beyond repair.
fn number_at(sp: &[u8], i: usize) -> Option<u16>
    requires { i + 3 ≤ length sp.now }
    ensures { result ≡ number_at sp.now i }
{
    let word = golay::decode(digits::from_three(sp[i], sp[i + 1], sp[i + 2]))?;
    Some(word.number)
}

fn fields_from(a: u16, b: u16, c: u16, d: u16) -> Fields
    ensures { Some result ≡ fields_from (Some a) (Some b) (Some c) (Some d) }
{
    Fields {
        channel: (a % 16) as usize * 4096 + b as usize,
        trailer: (c / 128) as usize,
        size: (c % 128) as usize * 4096 + d as usize,
    }
}

// The fields that an SP begins with, if none of its words is beyond repair.
pub fn fields_of(sp: &[u8]) -> Option<Fields>
    requires { 12 ≤ length sp.now }
    ensures { result ≡ fields_of sp.now }
{
    let a = number_at(sp, 0)?;
    let b = number_at(sp, 3)?;
    let c = number_at(sp, 6)?;
    let d = number_at(sp, 9)?;
    Some(fields_from(a, b, c, d))
}
