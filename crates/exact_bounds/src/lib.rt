// A bound beside each float of the rules, of how far it lies from the exact number, carried along from the samples to the answer. No code.

#![tactic(auto)]
