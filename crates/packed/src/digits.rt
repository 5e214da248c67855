// The digits of a row that is a number, and a digit of any number.
ghost use Rattle.std.specs.Prelude.{◌≡◌, ◌/◌, ◌%◌, [], ◌∷◌};
ghost use Rattle.packed.specs.Digits.{digit_at};
ghost use Rattle.packed.specs.Packed.{cycle_digits};

use std::array;

// The hex digit of a number at a place, counted from its end, sixteen being the first again.
#[tactic(auto, unfolding(crate::specs::Digits::digit_at))]
pub fn digit(n: u64, place: u8) -> u8
    ensures { result ≡ digit_at n place }
{
    ((n >> (place % 16 * 4)) % 16) as u8
}

// The instruction, by its number.
pub fn instruction(row: u64) -> u8
    ensures { result ≡ row % 256 }
{
    (row % 256) as u8
}

// The kind of each operand.
pub fn kinds(row: u64) -> [u8; 3]
    ensures { result ≡ row / 0x100 % 256 ∷ row / 0x10000 % 256 ∷ row / 0x1000000 % 256 ∷ [] }
{
    [
        (row / 0x1_00 % 256) as u8,
        (row / 0x1_00_00 % 256) as u8,
        (row / 0x1_00_00_00 % 256) as u8,
    ]
}

// How many bytes the row has.
pub fn length(row: u64) -> u8
    ensures { result ≡ row / 0x100000000 % 16 }
{
    (row / 0x1_00_00_00_00 % 16) as u8
}

// How many machine cycles it takes.
pub fn mcycles(row: u64) -> u8
    ensures { result ≡ row / 0x1000000000 % 16 }
{
    (row / 0x10_00_00_00_00 % 16) as u8
}

// The six T-states, the first one highest.
#[tactic(auto, unfolding(crate::specs::Digits::digit_at))]
pub fn states(row: u64) -> [u8; 6]
    ensures { result ≡ cycle_digits row }
{
    array::from_fn(|k| digit(row, 15 - k as u8))
}
