// How far one rounded operation lies from the exact one, and how such errors add up. No code.

#![tactic(auto)]
