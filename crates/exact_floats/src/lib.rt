// At binary64 the formulas over any arithmetic are the rules. No code.

#![tactic(auto)]
