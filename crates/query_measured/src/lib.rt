// What was measured is read: a query whose every coordinate equals a knot answers the number that the tensor has there, and after any
// changes the sample now standing there. Theorems about the promises of `query`, `quick_query`, `even_query`, `build`, `change` and
// `surface`, and no code.

#![tactic(auto)]
