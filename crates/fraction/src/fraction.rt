// Fractions of whole numbers, kept exact: the share of a task and the load of a program.
ghost use Rattle.std.specs.Prelude.{◌≡◌, ◌≤◌, MatchOption};
ghost use Rattle.std.specs.Int.{IsGcd};
ghost use Rattle.fraction.specs.Lowest.{Lowest};

use std::fmt;

// So many parts of a whole.
#[derive(Clone, Copy, Debug, PartialEq, Eq)]
pub struct Fraction {
    pub parts: u128,
    pub whole: u128,
    ghost divides: { 1 ≤ whole },
}

// Euclid: the rest of a division takes the place of the larger number until nothing is left.
fn greatest_divisor(a: u128, b: u128) -> u128
    ensures gcd { IsGcd a b result }
    ensures some { 1 ≤ b → 1 ≤ result }
{
    let (mut large, mut small) = (a, b);
    while small != 0 {
        (large, small) = (small, large % small);
    }
    large
}

impl Fraction {
    pub fn new(parts: u128, whole: u128) -> Option<Fraction>
        ensures { MatchOption result (whole ≡ 0) (λ s. (s.parts ≡ parts) × (s.whole ≡ whole)) }
    {
        if whole == 0 {
            return None;
        }
        Some(Fraction { parts, whole })
    }

    // The same ratio in lowest terms.
    pub fn reduced(self) -> Fraction
        ensures { Lowest self.parts self.whole result.parts result.whole }
    {
        let common = greatest_divisor(self.parts, self.whole);
        Fraction {
            parts: self.parts / common,
            whole: self.whole / common,
        }
    }
}

impl fmt::Display for Fraction {
    fn fmt<W: fmt::Write>(&self, f: &mut fmt::Formatter<W>) -> fmt::Result {
        match *self {
            Fraction { parts, whole: 1 } => write!(f, "{parts}"),
            Fraction { parts, whole } => write!(f, "{parts}/{whole}"),
        }
    }
}

#[cfg(test)]
mod tests {
    use super::*;

    #[test]
    fn reduces_to_lowest_terms(rt: HostRuntime) {
        let cases = [((12, 20), (3, 5)), ((1723, 1722), (1723, 1722))];
        for ((parts, whole), (least_parts, least_whole)) in cases {
            let reduced = Fraction::new(parts, whole).map(|share| share.reduced());
            assert_eq!(rt; reduced, Fraction::new(least_parts, least_whole));
        }
    }
}
