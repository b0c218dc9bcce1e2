// The input block's unread stretch.
ghost use Rattle.std.specs.Prelude.{◌≡◌, ◌+◌, ◌<◌, length};
ghost use Rattle.console.specs.Taking.{stretch, moved, begin_of, within, behind};

use crate::Unread;

// The stretch as far as a block of this size has it.
pub fn in_block(unread: Unread, size: usize) -> Unread
    ensures { result ≡ within size unread }
{
    let till = unread.till.min(size);
    Unread {
        from: unread.from.min(till),
        till,
        ..unread
    }
}

// The byte of the input at which the stretch begins.
pub fn begin_of(unread: Unread) -> u64
    ensures { result ≡ begin_of unread }
{
    unread.gone.saturating_add(unread.from as u64)
}

// The bytes of the stretch.
pub fn bytes_of(block: &[u8], unread: Unread) -> &[u8]
    ensures { result.now ≡ stretch block.now unread }
{
    let here = in_block(unread, block.len());
    &block[here.from..here.till]
}

// Moves the stretch to the block's start, and answers its length.
pub fn to_start(block: &mut [u8], unread: Unread) -> usize
    ensures value { result ≡ length (stretch block.old unread) }
    ensures block_after { block.new ≡ moved block.old unread }
{
    let here = in_block(unread, block.len());
    block.copy_within(here.from..here.till, 0);
    here.till - here.from
}

// The stretch behind its first n bytes.
pub fn behind(unread: Unread, n: usize) -> Unread
    requires { unread.from + n < 18446744073709551616 }
    ensures { result ≡ behind unread n }
{
    Unread {
        from: unread.from + n,
        ..unread
    }
}
