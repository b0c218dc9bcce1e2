// The sender's calls. Each is a function with `?` and its number: it writes the words behind an answer, and nothing on a refusal.
ghost use Rattle.std.specs.Prelude.{◌≡◌, min, length};
ghost use Rattle.sender.specs.Opening.{opened};
ghost use Rattle.sender.specs.Offering.{ordinary_offered, low_offered};
ghost use Rattle.sender.specs.Drawing.{drew};
ghost use Rattle.jenugathi.specs.Sending.{number_of, told, in_words, Lasting};

use sender::Refusal;

// No number from 255 on is a stream or a content.
fn byte_of(n: u32) -> u8
    ensures { result ≡ min n 255 }
{
    n.min(255) as u8
}

// Document 01's number, 0 where there is no refusal.
fn number_of(a: Result<(), Refusal>) -> u32
    ensures { result ≡ number_of a }
{
    match a {
        Err(k) => u8::from(k) as u32,
        Ok(()) => 0,
    }
}

fn open(
    w: &mut [u64; 11],
    tp: usize,
    stream: u32,
    piece: usize,
    low: &[u8],
    ordinary: &[u8],
) -> Result<(), Refusal>
    ensures w_after { record { number = number_of result; state = w.new } ≡ told w.old (opened tp stream piece (length low.now) (length ordinary.now)) }
    ensures lasting { Lasting (number_of result) w.new }
{
    let s = sender::open(tp, byte_of(stream), piece, low, ordinary)?;
    *w = sender::words::words_of(s);
    Ok(())
}

// Opens a sender over two queue buffers, the low-latency one first.
#[unsafe(no_mangle)]
pub extern "C" fn c7_sender_open(
    w: &mut [u64; 11],
    tp: usize,
    stream: u32,
    piece: usize,
    low: &[u8],
    ordinary: &[u8],
) -> u32
    ensures w_after { record { number = result; state = w.new } ≡ told w.old (opened tp stream piece (length low.now) (length ordinary.now)) }
    ensures lasting { Lasting result w.new }
{
    number_of(open(w, tp, stream, piece, low, ordinary))
}

fn offer(
    w: &mut [u64; 11],
    low: &[u8],
    ordinary: &mut [u8],
    content: u32,
    sp: &[u8],
) -> Result<(), Refusal>
    ensures ordinary_after { record { number = number_of result; state = w.new; buffer = ordinary.new } ≡ in_words w.old ordinary.old (λ s. ordinary_offered s low.now ordinary.old content sp.now) }
    ensures lasting { Lasting (number_of result) w.new }
{
    let s = sender::words::of_words(*w)?;
    let t = sender::offer_ordinary(s, low, ordinary, byte_of(content), sp)?;
    sender::words::put_ordinary(w, t);
    Ok(())
}

// Offers an ordinary packet.
#[unsafe(no_mangle)]
pub extern "C" fn c7_sender_offer(
    w: &mut [u64; 11],
    low: &[u8],
    ordinary: &mut [u8],
    content: u32,
    sp: &[u8],
) -> u32
    ensures ordinary_after { record { number = result; state = w.new; buffer = ordinary.new } ≡ in_words w.old ordinary.old (λ s. ordinary_offered s low.now ordinary.old content sp.now) }
    ensures lasting { Lasting result w.new }
{
    number_of(offer(w, low, ordinary, content, sp))
}

fn offer_low(
    w: &mut [u64; 11],
    low: &mut [u8],
    ordinary: &[u8],
    content: u32,
    sp: &[u8],
) -> Result<(), Refusal>
    ensures low_after { record { number = number_of result; state = w.new; buffer = low.new } ≡ in_words w.old low.old (λ s. low_offered s low.old ordinary.now content sp.now) }
    ensures lasting { Lasting (number_of result) w.new }
{
    let s = sender::words::of_words(*w)?;
    let t = sender::offer_low(s, low, ordinary, byte_of(content), sp)?;
    sender::words::put_low(w, t);
    Ok(())
}

// Offers a low-latency packet.
#[unsafe(no_mangle)]
pub extern "C" fn c7_sender_offer_low(
    w: &mut [u64; 11],
    low: &mut [u8],
    ordinary: &[u8],
    content: u32,
    sp: &[u8],
) -> u32
    ensures low_after { record { number = result; state = w.new; buffer = low.new } ≡ in_words w.old low.old (λ s. low_offered s low.old ordinary.now content sp.now) }
    ensures lasting { Lasting result w.new }
{
    number_of(offer_low(w, low, ordinary, content, sp))
}

fn draw(w: &mut [u64; 11], low: &[u8], ordinary: &[u8], tp: &mut [u8]) -> Result<(), Refusal>
    ensures tp_after { record { number = number_of result; state = w.new; buffer = tp.new } ≡ in_words w.old tp.old (λ s. drew s low.now ordinary.now tp.old) }
    ensures lasting { Lasting (number_of result) w.new }
{
    let s = sender::words::of_words(*w)?;
    let t = sender::draw(s, low, ordinary, tp)?;
    sender::words::put_drawn(w, t);
    Ok(())
}

// Draws a TP.
#[unsafe(no_mangle)]
pub extern "C" fn c7_sender_draw(
    w: &mut [u64; 11],
    low: &[u8],
    ordinary: &[u8],
    tp: &mut [u8],
) -> u32
    ensures tp_after { record { number = result; state = w.new; buffer = tp.new } ≡ in_words w.old tp.old (λ s. drew s low.now ordinary.now tp.old) }
    ensures lasting { Lasting result w.new }
{
    number_of(draw(w, low, ordinary, tp))
}
