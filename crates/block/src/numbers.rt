// Numbers in decimal.
ghost use Rattle.std.specs.Prelude.{◌≡◌, ◌+◌, ◌-◌, ◌≤◌, ◌<◌, length};
ghost use Rattle.block.specs.Block.{placed, put};
ghost use Rattle.block.specs.Decimal.{decimal, padded};

// Writes n's last digits, as many as out has, from the last one to the first one.
fn spell(out: &mut [u8], n: u64)
    ensures { out.new ≡ padded (length out.old) n }
{
    let mut rest = n;
    for i in (0..out.len()).rev() {
        out[i] = 48 + (rest % 10) as u8;
        rest /= 10;
    }
}

// The same for its last K digits, behind the first `at` bytes of out.
fn last<const K: usize>(out: &mut [u8], at: usize, n: u64)
    requires { at + K ≤ length out.old }
    ensures { out.new ≡ placed out.old at (padded K n) }
{
    let till = at + K;
    spell(&mut out[at..till], n);
}

// Puts a number of at most four digits, where four have room.
fn put_four(out: &mut [u8], at: usize, n: u64) -> usize
    requires n_bound { n < 10000 }
    requires at_in_bounds { at + 4 ≤ length out.old }
    ensures { record { bytes = out.new; at = result } ≡ put out.old at (decimal n) }
{
    if n < 10 {
        last::<1>(out, at, n);
        return at + 1;
    }
    if n < 100 {
        last::<2>(out, at, n);
        return at + 2;
    }
    if n < 1000 {
        last::<3>(out, at, n);
        return at + 3;
    }
    last::<4>(out, at, n);
    at + 4
}

// How many decimal digits n has.
fn places(n: u64) -> usize
    ensures { result ≡ length (decimal n) }
{
    n.max(1).ilog10() as usize + 1
}

// Puts any number, whatever room there is.
fn put_any(out: &mut [u8], at: usize, n: u64) -> usize
    ensures { record { bytes = out.new; at = result } ≡ put out.old at (decimal n) }
{
    let k = places(n);
    if out.len() < at || out.len() - at < k {
        return at;
    }
    let end = at + k;
    spell(&mut out[at..end], n);
    end
}

// Puts a number of one digit.
fn put_one(out: &mut [u8], at: usize, n: u64) -> usize
    requires { n < 10 }
    ensures { record { bytes = out.new; at = result } ≡ put out.old at (decimal n) }
{
    if out.len() <= at {
        return at;
    }
    last::<1>(out, at, n);
    at + 1
}

// Puts n in decimal. One of few digits is written without counting them, in some 20 instructions less.
pub fn put_number(out: &mut [u8], at: usize, n: u64) -> usize
    ensures { record { bytes = out.new; at = result } ≡ put out.old at (decimal n) }
{
    if n < 10 {
        return put_one(out, at, n);
    }
    if 10000 <= n || out.len() < at || out.len() - at < 4 {
        return put_any(out, at, n);
    }
    put_four(out, at, n)
}

// Puts n, which most often has one digit or two, where two have room.
pub fn put_small(out: &mut [u8], at: usize, n: u64) -> usize
    requires { at + 2 ≤ length out.old }
    ensures { record { bytes = out.new; at = result } ≡ put out.old at (decimal n) }
{
    if n < 10 {
        last::<1>(out, at, n);
        return at + 1;
    }
    if 100 <= n {
        return put_number(out, at, n);
    }
    last::<2>(out, at, n);
    at + 2
}
