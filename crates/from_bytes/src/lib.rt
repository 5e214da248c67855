// Numbers from bytes, and what is asked of the bytes of an input.
#![tactic(auto)]

ghost use Rattle.std.specs.Prelude.{◌≡◌, ◌==◌, cond, [], ◌∷◌, get_or};
ghost use Rattle.table.specs.Decode.{is_prefix, four};
ghost use Rattle.table.specs.Signed.{signed_of, relative_of};
ghost use Rattle.table.specs.Row.{word_of};

use std::array;

// A displacement: the byte in two's complement, -128 to 127.
#[tactic(auto, unfolding(table::specs::Signed::signed_of))]
pub fn signed(b: u8) -> i8
    ensures { result ≡ signed_of b }
{
    if b < 128 {
        b as i8
    } else {
        ((b as i16) - 256) as i8
    }
}

// A relative operand: the signed byte plus 2, -126 to 129.
#[tactic(auto, unfolding(table::specs::Signed::relative_of))]
pub fn relative(b: u8) -> i16
    ensures { result ≡ relative_of b }
{
    (signed(b) as i16) + 2
}

// A word, low byte first.
pub fn word(low: u8, high: u8) -> u16
    ensures { result ≡ word_of (low ∷ high ∷ []) }
{
    u16::from_le_bytes([low, high])
}

// DD and FD.
pub fn is_prefix(b: u8) -> bool
    ensures { result ≡ is_prefix b }
{
    matches!(b, 0xDD | 0xFD)
}

// The one behind DD, the other behind FD
pub fn by_prefix<T: Drop>(prefix: u8, dd: T, fd: T) -> T
    ensures { result ≡ cond (prefix == 0xDD) dd fd }
{
    if prefix == 0xDD { dd } else { fd }
}

// The byte at k, and zero past the end.
pub fn byte_at(ins: &[u8], k: usize) -> u8
    ensures { result ≡ get_or ins.now k 0 }
{
    ins.get(k).copied().unwrap_or(0)
}

// The input padded with zeros to four bytes.
pub fn ins_to_data(ins: &[u8]) -> [u8; 4]
    ensures { result ≡ four ins.now }
{
    array::from_fn(|k| byte_at(ins, k))
}
