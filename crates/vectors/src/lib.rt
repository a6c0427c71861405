// The model's vectors: reading their files, what cases go by, the changes and targets in them, and counting what the code under test says to them.
#![tactic(auto)]

pub mod changes;
pub mod items;
pub mod records;
pub mod replays;
pub mod standing;
pub mod tally;
pub mod targets;
