// Fractions of whole numbers, kept exact and told in lowest terms.
#![tactic(auto)]

pub mod fraction;
