#![tactic(auto)]

// Theory only: definitions and laws on plain lists and numbers that several crates cite. No functions.
