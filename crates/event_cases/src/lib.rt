// The model's events, made to happen and compared.
#![tactic(auto)]

pub mod cases;
