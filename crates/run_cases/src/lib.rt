// The model's runs, run and compared.
#![tactic(auto)]

pub mod cases;
