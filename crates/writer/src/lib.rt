// Writing to lent bytes: each text behind what stands before it, as far as there is room.
#![tactic(auto)]

ghost use Rattle.std.specs.Prelude.{◌≡◌, cond, Some, None, [], ◌∷◌, leb, length, drop, ◌++◌};

// Lent bytes, and the place in them behind what is written.
#[derive(Drop)]
pub struct Writer<'a> {
    pub buf: &'a mut [u8],
    pub at: usize,
}

impl<'a> Writer<'a> {
    ghost use Rattle.writer.specs.Puts.{Puts};

    // At the front of lent bytes.
    pub fn new(buf: &'a mut [u8]) -> Writer<'a>
        ensures same_reference { result.buf.ghost_name ≡ buf.entry.ghost_name }
        ensures bytes { result.buf.now ≡ buf.old }
        ensures front { result.at ≡ 0 }
    {
        Writer { buf, at: 0 }
    }

    // One byte.
    pub fn put(&mut self, b: u8)
        ensures { Puts self.old (b ∷ []) self.new }
    {
        if self.at < self.buf.len() {
            self.buf[self.at] = b;
            self.at += 1;
        }
    }

    // Every byte of `s`.
    pub fn put_bytes(&mut self, s: &[u8])
        ensures { Puts self.old s.now self.new }
    {
        for b in s {
            self.put(*b);
        }
    }
}

// A whole text to the front of lent bytes, with its count, or nothing where it does not fit.
pub fn give(text: &[u8], out: &mut [u8]) -> Option<usize>
    ensures answer { result ≡ cond (leb (length text.now) (length out.old)) (Some (length text.now)) None }
    ensures bytes { out.new ≡ cond (leb (length text.now) (length out.old)) (text.now ++ drop (length text.now) out.old) out.old }
{
    if out.len() < text.len() {
        return None;
    }
    out[..text.len()].copy_from_slice(text);
    Some(text.len())
}
