// The model's orders, carried out and compared.
#![tactic(auto)]

pub mod cases;
pub mod outcomes;
