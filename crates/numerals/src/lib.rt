// Numbers as text, written to lent bytes. What is inlined always keeps the place of a text's writer in a register.
#![tactic(auto)]

ghost use Rattle.std.specs.Prelude.{◌≡◌, ◌<◌};
ghost use Rattle.wording.specs.Digits.{digit as digit_of, hex8, hex16, digit_at, decimal, signed};
ghost use Rattle.writer.specs.Puts.{Puts};

use writer::Writer;

// The digit of a hex or a decimal number, worked out from its value.
fn digit(n: u8) -> u8
    requires { n < 16 }
    ensures { result ≡ digit_of n }
{
    if n < 10 { b'0' + n } else { b'A' + (n - 10) }
}

// Two upper-case hex digits.
pub fn put_hex8(out: &mut Writer, n: u8)
    ensures { Puts out.old (hex8 n) out.new }
{
    out.put(digit(n / 16));
    out.put(digit(n % 16));
}

// Four of them.
pub fn put_hex16(out: &mut Writer, n: u16)
    ensures { Puts out.old (hex16 n) out.new }
{
    let [high, low] = n.to_be_bytes();
    put_hex8(out, high);
    put_hex8(out, low);
}

// The digit of n at the power p of ten, where n reaches it.
fn put_digit(out: &mut Writer, n: u16, p: u16)
    requires { 0 < p }
    ensures { Puts out.old (digit_at n p) out.new }
{
    if p <= n {
        out.put(digit((n / p % 10) as u8));
    }
}

// Decimal, with no zeros in front.
#[inline(always)]
pub fn put_decimal(out: &mut Writer, n: u16)
    ensures { Puts out.old (decimal n) out.new }
{
    for p in [10000, 1000, 100, 10] {
        put_digit(out, n, p);
    }
    out.put(digit((n % 10) as u8));
}

// Decimal, with its sign.
#[inline(always)]
pub fn put_signed(out: &mut Writer, n: i16)
    ensures { Puts out.old (signed n) out.new }
{
    let sign = if n < 0 { b'-' } else { b'+' };
    out.put(sign);
    put_decimal(out, n.unsigned_abs());
}
