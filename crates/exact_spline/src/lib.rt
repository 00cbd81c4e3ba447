// The rules over any arithmetic, what a cubic spline is, and that in exact arithmetic the rules give it, on any number of axes. No code.

#![tactic(auto)]
