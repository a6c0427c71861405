#![tactic(auto)]

// Laws about the definitions of the paper, for proofs of code: they stand in specs/, and there is no code.
