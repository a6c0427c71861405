#![tactic(auto)]

// The three demands, of any program that keeps the promises of the public calls: the page is specs/Demands.antt, and there is no code.
