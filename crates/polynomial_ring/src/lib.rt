//! Polynomials with coefficients modulo 2, as numbers: bit i of a number is the coefficient of t^i.
//! There is no code here: specs/Polynomials has the definitions, specs/Laws says what they are in the words of the subject,
//! and proofs/ shows that (Coefficients, Remainders), with the ring's laws (Products) and what serves products four bits at a time (Windows).
#![tactic(auto)]
