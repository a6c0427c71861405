#![tactic(auto)]

// Laws of a task's own machine, of where it lies and how it is put back: they stand in specs/, and there is no code.
