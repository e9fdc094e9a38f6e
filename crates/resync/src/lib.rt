// No code: demand 3, two sections that end in the same bytes are read alike from there on.
#![tactic(auto)]
