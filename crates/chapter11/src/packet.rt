// A Chapter 11 packet's header: its fields, its checksum, and where its fill stands.
ghost use Rattle.std.specs.Prelude.{◌≡◌, ◌↔◌, ◌+◌, ◌≤◌, true, length, take, IsTrue, All};
ghost use Rattle.chapter11.specs.Packet.{two_at, four_at, two, four, secondary_by, sum_size_by, header_sum, together as Packet·together, is_packet, cut_in, header_for};

// The sync pattern.
pub const SYNC: u16 = 0xEB25;

// The most bytes that a packet may have.
const LONGEST: usize = 131072;

// Where the fill to be cut begins and ends, and how many bytes the packet has without it.
#[derive(Clone, Copy)]
pub struct Cut {
    pub from: usize,
    pub till: usize,
    pub left: usize,
}

// The number of two bytes, least significant first.
pub fn two_at(p: &[u8], i: usize) -> u16
    requires { i + 2 ≤ length p.now }
    ensures { result ≡ two_at p.now i }
{
    u16::from_le_bytes([p[i], p[i + 1]])
}

// The number of four bytes, least significant first.
pub fn four_at(p: &[u8], i: usize) -> usize
    requires { i + 4 ≤ length p.now }
    ensures { result ≡ four_at p.now i }
{
    u32::from_le_bytes([p[i], p[i + 1], p[i + 2], p[i + 3]]) as usize
}

// The two low bytes of a number, and the four low ones, least significant first.
pub fn two_of(n: usize) -> [u8; 2]
    ensures { result ≡ two n }
{
    ((n % 65536) as u16).to_le_bytes()
}

pub fn four_of(n: usize) -> [u8; 4]
    ensures { result ≡ four n }
{
    ((n % 4294967296) as u32).to_le_bytes()
}

// Bytes of secondary header.
fn secondary(flags: u8) -> usize
    ensures { result ≡ secondary_by flags }
{
    (flags / 128 % 2) as usize * 12
}

// Bytes of data checksum.
fn sum_size(flags: u8) -> usize
    ensures { result ≡ sum_size_by flags }
{
    let kind = flags % 4;
    if kind == 3 { 4 } else { kind as usize }
}

// The sum of the header's words but the last, which is where it stands.
fn sum_of(header: &[u8]) -> u16
    requires { 22 ≤ length header.now }
    ensures { result ≡ header_sum header.now }
{
    let mut sum: u16 = 0;
    for i in 0..11 {
        sum = sum.wrapping_add(two_at(header, 2 * i));
    }
    sum
}

// Header, secondary header, data and data checksum together.
fn together(p: &[u8]) -> usize
    requires { 24 ≤ length p.now }
    ensures { result ≡ Packet·together p.now }
{
    24 + secondary(p[14]) + four_at(p, 8) + sum_size(p[14])
}

pub fn is_packet(p: &[u8]) -> bool
    ensures { result ≡ is_packet p.now }
{
    if p.len() < 24
        || LONGEST < p.len()
        || two_at(p, 0) != SYNC
        || four_at(p, 4) != p.len()
        || two_at(p, 22) != sum_of(p)
    {
        return false;
    }
    together(p) <= p.len()
}

// Where the fill to be cut stands: behind the fill that is kept, before the data checksum.
pub fn cut_of(p: &[u8]) -> Cut
    requires { is_packet p.now ≡ true }
    ensures { result ≡ cut_in p.now }
{
    let sum = sum_size(p[14]);
    let whole = together(p);
    let kept = (p.len() - whole) % 4;
    Cut {
        from: whole - sum + kept,
        till: p.len() - sum,
        left: whole + kept,
    }
}

pub fn is_zero(s: &[u8]) -> bool
    ensures { IsTrue result ↔ All (λ b. b ≡ 0) s.now }
{
    s.iter().all(|&b| b == 0)
}

// The packet's header for a packet of n bytes, with the checksum that goes with it.
pub fn header_for(p: &[u8], n: usize) -> [u8; 24]
    requires { 24 ≤ length p.now }
    ensures { result ≡ header_for (take 24 p.now) n }
{
    let mut h = [0u8; 24];
    block::put(&mut h, 0, &p[0..24]);
    block::put(&mut h, 4, &four_of(n));
    let sum = two_of(sum_of(&h) as usize);
    block::put(&mut h, 22, &sum);
    h
}
