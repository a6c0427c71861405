// A report for people: the table of who used the machine, and its chart.
#![tactic(auto)]

mod bars;
mod chart;
mod headings;
mod table;

pub use chart::put_chart;
pub use table::put_table;
