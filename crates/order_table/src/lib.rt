// The table of orders, with one entry for each of the 256 high bytes.
#![tactic(auto)]

ghost use Rattle.std.specs.Prelude.{◌≡◌, ◌<◌};
ghost use Rattle.paper.specs.Orders.{order_of, shape_of_order};
ghost use Rattle.order_table.specs.Entries.{OrderTable, encoded, decoded};

use paper::HIGH_BYTES;
pub use table::KIND;
use table::ORDER_TABLE;

pub mod kinds;
mod table;

// The table, for a caller that lays it out once and lends it down.
pub fn laid_out() -> [u16; HIGH_BYTES]
    ensures { OrderTable result }
{
    ORDER_TABLE
}

// The entry of the order whose first word has the high byte op: it tells the order's count of words and its fields.
pub fn entry(table: &[u16; HIGH_BYTES], op: u16) -> u16
    requires op_bound { op < 256 }
    requires order_table { OrderTable table.now }
    ensures value { result ≡ encoded (order_of op) }
    ensures result_value { decoded result ≡ shape_of_order (order_of op) }
{
    table[op as usize]
}
