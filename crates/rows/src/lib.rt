// The rows of orders, by which words are spelt.
#![tactic(auto)]

ghost use Rattle.std.specs.Prelude.{◌≡◌, ◌*◌, ◌<◌, ◌≤◌};
ghost use Rattle.rows.specs.Rows.{rows_end, sixteenths, row_of, Tells};

pub use tables::{FIELD_B, Parts, ROWS, SECOND_WORD, SIXTEENTHS, TAIL};
use tables::{ROW_PARTS, ROW_TABLE};

mod tables;

// The row of the first word of a sixteenth.
pub fn row_at(k: usize) -> usize
    requires { k ≤ sixteenths }
    ensures { result ≡ row_of (16 * k) }
{
    usize::from(ROW_TABLE[k])
}

// What a row tells.
pub fn parts_of(row: usize) -> Parts
    requires { row < rows_end }
    ensures { Tells row result }
{
    ROW_PARTS[row]
}
