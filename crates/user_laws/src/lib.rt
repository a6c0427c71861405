#![tactic(auto)]

// What a user asks of events and of runs: laws in specs/, and there is no code.
