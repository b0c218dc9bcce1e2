// A queue of bytes in a lent buffer, as a ring; and the copies into a part of a buffer.
#![tactic(auto)]

ghost use Rattle.std.specs.Prelude.{◌≡◌, cond, ◌++◌, ◌+◌, ◌-◌, ◌≤◌, min, leb, length, take, get_or, replicate};
ghost use Rattle.std.proofs.Math.Seq.{paste};
ghost use Rattle.queue.specs.Ring.{copied, held, Kept, kept, written, pushed, off, place, popped};

// How many of n bytes there is place for behind index at.
fn clamped(size: usize, at: usize, n: usize) -> usize
    ensures { result ≡ min n (size - at) }
{
    n.min(size.saturating_sub(at))
}

// Copies src into dst from index at on.
fn copy_run(dst: &mut [u8], at: usize, src: &[u8])
    requires { at + length src.now ≤ length dst.old }
    ensures { dst.new ≡ paste dst.old at src.now (length src.now) }
{
    let end = at + src.len();
    dst[at..end].copy_from_slice(src);
}

// Copies src into dst from index at on, as much as there is place for. Where that is all of src, the compiler knows how much it copies
// wherever it knows src's length.
pub fn copy_at(dst: &mut [u8], at: usize, src: &[u8])
    ensures { dst.new ≡ copied dst.old at src.now }
{
    if dst.len() < at {
        return;
    }
    let n = clamped(dst.len(), at, src.len());
    if n == src.len() {
        copy_run(dst, at, src);
        return;
    }
    copy_run(dst, at, &src[..n]);
}

// Writes v to n bytes of dst from index at on, as many as there is place for.
pub fn fill_at(dst: &mut [u8], at: usize, n: usize, v: u8)
    ensures { dst.new ≡ copied dst.old at (replicate n v) }
{
    if dst.len() < at {
        return;
    }
    let end = at + clamped(dst.len(), at, n);
    dst[at..end].fill(v);
}

#[tactic(auto, unfolding(crate::specs::Ring::place))]
fn has_place(size: usize, at: usize, n: usize) -> bool
    ensures { result ≡ place size at n }
{
    at <= size && n <= size - at
}

// What is queued of a buffer that the caller lends at each call: from the head on len bytes, round the buffer's end.
// A struct of both would be two, one over a `&` and one over a `&mut`, and who makes one would owe `Kept` all the same.
#[derive(Clone, Copy)]
pub struct Ring {
    pub head: usize,
    pub len: usize,
}

impl Ring {
    #[tactic(auto, unfolding(crate::specs::Ring::kept))]
    fn is_kept(self, cap: usize) -> bool
        ensures { result ≡ kept cap self }
    {
        self.head <= cap && self.len <= cap
    }

    // The index of place i of what is held; place len is the one behind it.
    pub fn place_of(self, cap: usize, i: usize) -> usize
        requires { self.head ≤ cap }
        ensures { result ≡ cond (leb cap (self.head + i)) (self.head + i - cap) (self.head + i) }
    {
        let first = cap - self.head;
        if first <= i {
            return i - first;
        }
        self.head + i
    }

    // Writes src behind what is held, up to the buffer's end and then from its start.
    fn write(self, buf: &mut [u8], src: &[u8])
        requires kept { Kept buf.old self }
        requires src_in_bounds { length src.now ≤ length buf.old - self.len }
        ensures { buf.new ≡ written buf.old self src.now }
    {
        let tail = self.place_of(buf.len(), self.len);
        let first = clamped(buf.len(), tail, src.len());
        copy_run(buf, tail, &src[..first]);
        copy_run(buf, 0, &src[first..]);
    }

    // Writes six bytes and then a body behind what is held, each by itself.
    fn write_apart(self, buf: &mut [u8], h: [u8; 6], body: &[u8])
        requires kept { Kept buf.old self }
        requires body_in_bounds { 6 + length body.now ≤ length buf.old - self.len }
        ensures { buf.new ≡ written buf.old self (h ++ body.now) }
    {
        self.write(buf, &h);
        let t = Ring {
            len: self.len + 6,
            ..self
        };
        t.write(buf, body);
    }

    // Puts six bytes and then a body behind what is held, if both fit. Asks once where the ring wraps.
    pub fn push(self, buf: &mut [u8], h: [u8; 6], body: &[u8]) -> Ring
        requires { Kept buf.old self }
        ensures { record { ring = result; bytes = buf.new } ≡ pushed buf.old self (h ++ body.now) }
    {
        let cap = buf.len();
        let free = cap - self.len;
        if free < 6 || free - 6 < body.len() {
            return self;
        }
        let n = 6 + body.len();
        let t = Ring {
            len: self.len + n,
            ..self
        };
        let tail = self.place_of(cap, self.len);
        if cap - tail < n {
            self.write_apart(buf, h, body);
            return t;
        }
        // in two runs, each of which the compiler stores at once
        copy_run(buf, tail, &h[..4]);
        copy_run(buf, tail + 4, &h[4..6]);
        copy_run(buf, tail + 6, body);
        t
    }

    // Reads the first bytes of what is held, as many as dst has, in at most two runs.
    fn read(self, buf: &[u8], dst: &mut [u8])
        requires kept { Kept buf.now self }
        requires dst_len_bound { length dst.old ≤ self.len }
        ensures { dst.new ≡ take (length dst.old) (held buf.now self) }
    {
        let n = dst.len();
        let first = buf.len() - self.head;
        if n <= first {
            let end = self.head + n;
            dst.copy_from_slice(&buf[self.head..end]);
            return;
        }
        let left = n - first;
        dst[..first].copy_from_slice(&buf[self.head..]);
        dst[first..].copy_from_slice(&buf[..left]);
    }

    // What is held of a buffer of cap bytes once n bytes are off.
    fn off_by(self, cap: usize, n: usize) -> Ring
        requires { (self.head ≤ cap) × (n ≤ cap) × (n ≤ self.len) }
        ensures { result ≡ off cap self n }
    {
        let first = cap - self.head;
        let len = self.len - n;
        if n <= first {
            let head = self.head + n;
            return Ring { head, len };
        }
        let head = n - first;
        Ring { head, len }
    }

    // Takes n bytes off what is held into dst from index at on, if they are held and there is place.
    pub fn pop_into(self, buf: &[u8], dst: &mut [u8], at: usize, n: usize) -> Ring
        ensures { record { ring = result; bytes = dst.new } ≡ popped buf.now self dst.old at n }
    {
        if !self.is_kept(buf.len()) || self.len < n || !has_place(dst.len(), at, n) {
            return self;
        }
        let end = at + n;
        self.read(buf, &mut dst[at..end]);
        self.off_by(buf.len(), n)
    }

    // Byte i of what is held; 0 if that is no more than i bytes.
    pub fn byte_at(self, buf: &[u8], i: usize) -> u8
        requires { Kept buf.now self }
        ensures { result ≡ get_or (held buf.now self) i 0 }
    {
        if self.len <= i {
            return 0;
        }
        buf[self.place_of(buf.len(), i)]
    }
}
