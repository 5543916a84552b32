#![tactic(auto)]

// Theory only: no two different trains of one description have the same sent bits. No functions.
