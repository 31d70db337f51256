// The cases that are proved: a table of what the sheets A and B give, from their bytes. It has no code of its own.
#![tactic(auto)]
