// A page of the opcode chart.
ghost use Rattle.std.specs.Prelude.{ℕ, ◌≡◌, List, get_or};
ghost use Rattle.table.specs.Row.{Row, gap};
ghost use Rattle.packed.specs.Packed.{packed};
ghost use Rattle.pages.specs.Chart.{chart};

use super::column::nth;

// Sixteen lines of sixteen rows, those of the table's lines as numbers.
pub(crate) trait Page {
    ghost ROWS: { List (List ℕ) };

    ghost lines: { List Row };

    const ROWS: [[u64; 16]; 16];

    ghost charted: { ROWS ≡ chart lines };
}

// The row of a code; 0 where there is none.
pub(crate) fn row<P: Page>(code: u8) -> u64
    ensures { result ≡ packed (get_or P.lines code gap) }
{
    nth(nth(P::ROWS, code / 16), code % 16)
}
