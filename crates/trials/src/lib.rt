// Tests of the static check as a whole, on images written out.
#![tactic(auto)]

#[cfg(test)]
mod images;
#[cfg(test)]
mod tests;
