// The rational numbers, which are an ordered field, and the exact value of a float. No code.

#![tactic(auto)]
