// Equalities of a field, decided by computation: expressions, the fractions of polynomials that they come to, and that equal fractions are
// equal numbers. No code.

#![tactic(auto)]
