// Chapter 11's calls: the source packet of a packet, and the packet of a source packet.
ghost use Rattle.std.specs.Prelude.{◌≡◌, length};
ghost use Rattle.chapter11.specs.Source.{left, composed_of, reassembled_of};
ghost use Rattle.jenugathi.specs.Composing.{counted, made};

use chapter11::Refusal;

// Tells an answer in numbers.
fn count(written: &mut u64, a: Result<usize, Refusal>) -> u32
    ensures { record { number = result; written = written.new } ≡ counted written.old a }
{
    match a {
        Err(k) => u8::from(k) as u32,
        Ok(n) => {
            *written = n as u64;
            0
        }
    }
}

// Composes the source packet of a Chapter 11 packet.
#[unsafe(no_mangle)]
pub extern "C" fn c7_compose(packet: &[u8], out: &mut [u8], written: &mut u64) -> u32
    ensures { record { number = result; written = written.new; buffer = out.new } ≡ made written.old (left out.old (composed_of packet.now (length out.old))) }
{
    count(written, chapter11::compose(packet, out))
}

// Reassembles the Chapter 11 packet of a source packet.
#[unsafe(no_mangle)]
pub extern "C" fn c7_reassemble(sp: &[u8], out: &mut [u8], written: &mut u64) -> u32
    ensures { record { number = result; written = written.new; buffer = out.new } ≡ made written.old (left out.old (reassembled_of sp.now (length out.old))) }
{
    count(written, chapter11::reassemble(sp, out))
}
