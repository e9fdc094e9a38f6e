// No code: that the numbers of a walk fit the bits in which they travel, and stay so, call by call.
#![tactic(auto)]
