#![tactic(auto)]

// Laws of printing: definitions and theorems in specs/, and there is no code.
