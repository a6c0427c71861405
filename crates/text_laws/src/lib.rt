#![tactic(auto)]

// Laws of the text form that a user asks for: definitions and theorems in specs/, and there is no code.
