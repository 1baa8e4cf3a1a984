//! Tests of products of polynomials modulo 65537.
#![tactic(auto)]

#[cfg(test)]
mod products;
#[cfg(test)]
mod transforms;
