ghost use Rattle.std.specs.Prelude.{◌≡◌, ◌+◌, ◌<◌, ◌≤◌, ◌↔◌, SomeIff};
ghost use Rattle.mean_fraction.specs.OrderNumbers.{order_number};
ghost use Rattle.agglo_model.specs.PairOrder.{
  IsWithinLimits,
  Before,
  Contact,
  SameRank,
  added,
  most_edges,
};

use std::cmp::Ordering;
use std::marker::Model;

/// As many edge numbers as the largest volume has: three for each of 2^28 voxels.
const MOST_EDGES: u32 = 805_306_368;

/// So many units of an order number's mean make one: more than the product of two numbers of edges.
const MEAN_UNITS: u128 = 1 << 60;

/// So many numbers are for contacts of one mean: more than there are ties.
const TIE_UNITS: u32 = 1 << 30;

/// The contact of two regions: the sum of the affinities of its edges, how many edges they are, and
/// the least edge number, which breaks ties. Its mean affinity is the sum over the count.
#[derive(Clone, Copy)]
pub struct Contact {
    sum: u64,
    count: u32,
    tie: u32,
}

impl Model for Contact {
    ghost use Rattle.agglo_model.specs.PairOrder.{Contact as ContactNumbers, IsWithinLimits};

    ghost Value = { ContactNumbers };

    ghost view = { λ c. record { sum = c.sum; count = c.count; tie = c.tie } };

    ghost invariant = { λ c. IsWithinLimits (record { sum = c.sum; count = c.count; tie = c.tie }) };

    ghost inverse = { λ c. record { sum = c.sum; count = c.count; tie = c.tie } };
}

impl Contact {
    /// The contact that one edge makes, of this affinity and this number.
    pub fn one(byte: u8, edge: u32) -> Contact
        requires { edge < most_edges }
        ensures { result ≡ record { sum = byte; count = 1; tie = edge } }
    {
        Contact {
            sum: u64::from(byte),
            count: 1,
            tie: edge,
        }
    }

    /// The contact of these numbers; none where no volume has such a contact: without an edge, with
    /// more edges than there are, with a sum above 255 an edge, or with no edge's number as the tie.
    pub fn of(sum: u64, count: u64, tie: u32) -> Option<Contact>
        ensures { SomeIff result (IsWithinLimits (record { sum = sum; count = count; tie = tie }))
            (record { sum = sum; count = count; tie = tie }) }
    {
        let counted = count >= 1 && count <= u64::from(MOST_EDGES);
        if counted && sum <= 255 * count && tie < MOST_EDGES {
            Some(Contact {
                sum,
                count: count as u32,
                tie,
            })
        } else {
            None
        }
    }

    /// The sum of the affinities.
    pub fn sum(&self) -> u64
        ensures value { result ≡ self.now.sum }
        ensures limits { IsWithinLimits self.now }
    {
        self.sum
    }

    /// How many edges there are, at least 1.
    pub fn count(&self) -> u64
        ensures value { result ≡ self.now.count }
        ensures limits { IsWithinLimits self.now }
    {
        u64::from(self.count)
    }

    /// The least edge number.
    pub fn tie(&self) -> u32
        ensures value { result ≡ self.now.tie }
        ensures limits { IsWithinLimits self.now }
    {
        self.tie
    }

    /// The contact of the edges of both, which share none.
    pub fn add(self, other: Contact) -> Contact
        requires { self.count + other.count ≤ most_edges }
        ensures { result ≡ added self other }
    {
        Contact {
            sum: self.sum + other.sum,
            count: self.count + other.count,
            tie: self.tie.min(other.tie),
        }
    }
}

/// Compares two contacts by pair order: the one that comes first is the greater. The means are
/// compared as exact fractions, and equal means by their ties, of which the smaller comes first.
pub fn rank(a: &Contact, b: &Contact) -> Ordering
    ensures greater { (result ≡ Ordering.Greater) ↔ Before a.now b.now }
    ensures less { (result ≡ Ordering.Less) ↔ Before b.now a.now }
    ensures equal { (result ≡ Ordering.Equal) ↔ SameRank a.now b.now }
{
    let left = u128::from(a.sum) * u128::from(b.count);
    let right = u128::from(b.sum) * u128::from(a.count);
    match left.cmp(&right) {
        Ordering::Equal => b.tie.cmp(&a.tie),
        unequal => unequal,
    }
}

/// A number that stands for a contact where many are compared: of two contacts the one that comes first has the
/// greater number.
pub fn order_number(contact: &Contact) -> u128
    ensures value { result ≡ order_number contact.now }
    ensures limits { IsWithinLimits contact.now }
    ensures before { (other : Contact) → IsWithinLimits other → Before contact.now other ↔ order_number other < result }
{
    let scaled_mean = u128::from(contact.sum) * MEAN_UNITS / u128::from(contact.count);
    scaled_mean * u128::from(TIE_UNITS) + u128::from(TIE_UNITS - 1 - contact.tie)
}
