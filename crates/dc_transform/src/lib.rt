//! Products of polynomials modulo 65537 by number-theoretic transforms.
#![tactic(auto)]

mod checks;
mod halves;
mod places;
mod quarters;
mod residue;
mod roots;
mod table;
mod transform;

pub use checks::{are_symbols, has_rows};
pub use places::{add_places, divide, multiply_places, multiply_rows};
pub use roots::Roots;
