//! Products of polynomials modulo 65537 and number-theoretic transforms, as definitions with their laws.
#![tactic(auto)]

mod laws;

pub use laws::{columns, product_is_sum, transform_of_product, way_back};
