// What the rules compute with: an arithmetic, and what makes it a field and an ordered one. No code.

#![tactic(auto)]
