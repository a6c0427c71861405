#![tactic(auto)]

// What the user is told of a run that counts: the page is specs/Used.antt, and there is no code.
