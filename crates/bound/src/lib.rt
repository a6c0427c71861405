#![tactic(auto)]

// How long a task waits for its turn: definitions and theorems in specs/, and there is no code.
