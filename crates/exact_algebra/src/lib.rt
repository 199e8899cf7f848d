//! Exact algebra for the proofs of the other crates: it has definitions and lemmas, and no code.
//!
//! - `Ring`: equations and inequalities between polynomials over the whole numbers, decided by computation.
//! - `Machine`: no step of a sum of products overflows, and its result is the polynomial.
//! - `Order`, `Cauchy`: signs of products, cancelling, Cauchy's inequality.
//! - `Rounding`: quotients rounded down and up, and the least root.
#![tactic(auto)]
