// What refusals let pass has one exact spline, and the rules computed without rounding give it. No code.

#![tactic(auto)]
