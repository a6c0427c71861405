#![tactic(auto)]

// Laws of events: they stand in specs/, and there is no code.
