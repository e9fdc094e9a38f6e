// No code: what a 32-bit pattern means over the integers.
#![tactic(auto)]
