// Chapter 11 packets as source packets, and back (R-1 of document 02; IRIG 106-23 Chapter 7, 7.2.2.4).
#![tactic(auto)]

ghost use Rattle.std.specs.Prelude.{◌≡◌, ◌+◌, ◌≤◌, true, length, ◌==◌};
ghost use Rattle.block.specs.Block.{put};
ghost use Rattle.chapter11.specs.Packet.{is_packet, new_length, cut_in};
ghost use Rattle.chapter11.specs.Source.{refusal_number, fields_in, left, source_packet, composed_of, packet_of, reassembled_of};

mod packet;
mod words;

use packet::Cut;

// Document 02's numbers 17 and 18.
#[derive(Clone, Copy)]
pub enum Refusal {
    Unfit,
    Fill,
}

impl From<Refusal> for u8 {
    ghost from_gives = { λ k n. n ≡ refusal_number k };

    fn from(k: Refusal) -> u8 {
        match k {
            Refusal::Unfit => 17,
            Refusal::Fill => 18,
        }
    }
}

// What the Golay words of a source packet say.
#[derive(Clone, Copy)]
struct Fields {
    channel: usize,
    trailer: usize,
    size: usize,
}

// The fields of a packet that has n bytes once its fill is cut.
fn fields_in(packet: &[u8], n: usize) -> Fields
    requires packet_value { is_packet packet.now ≡ true }
    requires n_value { n ≡ new_length packet.now }
    ensures { result ≡ fields_in packet.now }
{
    let size = packet::four_at(packet, 8);
    Fields {
        channel: packet::two_at(packet, 2) as usize,
        trailer: n - 24 - size,
        size,
    }
}

// Writes the source packet of a packet from which the fill is cut.
fn write_source(packet: &[u8], cut: Cut, out: &mut [u8]) -> usize
    requires packet_value { is_packet packet.now ≡ true }
    requires cut_value { cut ≡ cut_in packet.now }
    requires left_in_bounds { cut.left ≤ length out.old }
    ensures { record { bytes = out.new; at = result } ≡ put out.old 0 (source_packet packet.now) }
{
    let from = cut.from;
    let till = cut.till;
    let protected = words::protect(fields_in(packet, cut.left));
    let header = packet::header_for(packet, cut.left);
    let mut at = block::put(out, 0, &protected);
    at = block::put(out, at, &header[12..24]);
    at = block::put(out, at, &packet[24..from]);
    block::put(out, at, &packet[till..])
}

// Composes the source packet of a Chapter 11 packet, at out's start, and answers how many bytes it has.
pub fn compose(packet: &[u8], out: &mut [u8]) -> Result<usize, Refusal>
    ensures { record { answer = result; buffer = out.new } ≡ left out.old (composed_of packet.now (length out.old)) }
{
    if !packet::is_packet(packet) {
        return Err(Refusal::Unfit);
    }
    let cut = packet::cut_of(packet);
    let from = cut.from;
    let till = cut.till;
    if out.len() < cut.left {
        return Err(Refusal::Unfit);
    }
    if !packet::is_zero(&packet[from..till]) {
        return Err(Refusal::Fill);
    }
    Ok(write_source(packet, cut, out))
}

// Whether a source packet of n bytes can have these fields.
fn agree(fields: Fields, n: usize) -> bool
    ensures { result ≡ (24 + fields.trailer + fields.size == n) }
{
    24 <= n && fields.trailer <= n - 24 && n - 24 - fields.trailer == fields.size
}

// Writes the packet of a source packet with these fields.
fn write_packet(fields: Fields, sp: &[u8], out: &mut [u8]) -> usize
    requires { (24 ≤ length sp.now) × (length sp.now ≤ length out.old) }
    ensures { record { bytes = out.new; at = result } ≡ put out.old 0 (packet_of fields sp.now) }
{
    let mut at = block::put(out, 0, &packet::two_of(packet::SYNC as usize));
    at = block::put(out, at, &packet::two_of(fields.channel));
    at = block::put(out, at, &packet::four_of(sp.len()));
    at = block::put(out, at, &packet::four_of(fields.size));
    block::put(out, at, &sp[12..])
}

// Reassembles the Chapter 11 packet of a source packet, at out's start, and answers how many bytes it has.
pub fn reassemble(sp: &[u8], out: &mut [u8]) -> Result<usize, Refusal>
    ensures { record { answer = result; buffer = out.new } ≡ left out.old (reassembled_of sp.now (length out.old)) }
{
    if sp.len() < 24 {
        return Err(Refusal::Unfit);
    }
    let Some(fields) = words::fields_of(sp) else {
        return Err(Refusal::Unfit);
    };
    if !agree(fields, sp.len()) {
        return Err(Refusal::Unfit);
    }
    if out.len() < sp.len() {
        return Err(Refusal::Unfit);
    }
    Ok(write_packet(fields, sp, out))
}
