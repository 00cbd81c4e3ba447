// Laws of floats alone, for either format where they can be: the place of a number among all others, by which comparisons and differences
// are those of whole numbers; that rounding gives back what fits; and what the operations give at zero, at one and at equal numbers.

#![tactic(auto)]
