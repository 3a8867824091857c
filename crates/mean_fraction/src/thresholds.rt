ghost use Rattle.std.specs.Prelude.{◌≡◌, ◌<◌, ◌↔◌, IsTrue, MatchResult};
ghost use Rattle.agglo_model.specs.PairOrder.{Reaches};

use crate::contacts::Contact;
use std::marker::Model;

/// The mean affinity `p / q` from which on two regions are merged, as an exact fraction.
#[derive(Clone, Copy)]
pub struct Threshold {
    p: u32,
    q: u32,
}

impl Model for Threshold {
    ghost use Rattle.std.specs.Prelude.{◌<◌};
    ghost use Rattle.agglo_model.specs.PairOrder.{Threshold as Fraction};

    ghost Value = { Fraction };

    ghost view = { λ t. record { p = t.p; q = t.q } };

    ghost invariant = { λ t. 0 < t.q };

    ghost inverse = { λ t. record { p = t.p; q = t.q } };
}

/// A threshold whose denominator is 0 was refused.
#[derive(Clone, Copy, Debug)]
pub struct ZeroDenominator;

impl Threshold {
    /// The threshold `p / q`, refused exactly where `q` is 0.
    pub fn new(p: u32, q: u32) -> Result<Threshold, ZeroDenominator>
        ensures { MatchResult result
            (λ t. (0 < q) × (t ≡ record { p = p; q = q }))
            (λ _. q ≡ 0) }
    {
        if q == 0 {
            Err(ZeroDenominator)
        } else {
            Ok(Threshold { p, q })
        }
    }

    /// The numerator, as given.
    pub fn p(&self) -> u32
        ensures { result ≡ self.now.p }
    {
        self.p
    }

    /// The denominator, as given; it is never 0.
    pub fn q(&self) -> u32
        ensures value { result ≡ self.now.q }
        ensures positive { 0 < self.now.q }
    {
        self.q
    }

    /// Whether the contact's mean is at least the threshold.
    pub fn reaches(&self, c: &Contact) -> bool
        ensures { IsTrue result ↔ Reaches self.now c.now }
    {
        u128::from(c.sum()) * u128::from(self.q) >= u128::from(self.p) * u128::from(c.count())
    }
}
