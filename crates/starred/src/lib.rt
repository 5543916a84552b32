#![tactic(auto)]

// Theory only: the cases that document 01 marks *, as one statement over one list about the definitions. No functions.
