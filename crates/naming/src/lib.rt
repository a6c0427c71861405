// The passes that read what lines give: the names, and then the labels of the script.
#![tactic(auto)]

pub use labels::read_labels;
pub use names::read_names;

mod labels;
mod names;
