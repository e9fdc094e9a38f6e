// No code: what a host gets that imports a log through the functions for C, however it cuts the walk into calls.
#![tactic(auto)]
