use mean_fraction::{Contact, Threshold, ZeroDenominator, rank};
use std::cmp::Ordering;

/// The sum, the count and the tie of a contact.
type Numbers = (u64, u64, u32);

/// Two contacts, and how the first ranks against the second; none where one of them is no contact of a volume. Equal
/// means rank by tie. The products of the last two take more than 64 bits.
const RANKED: &[(Numbers, Numbers, Option<Ordering>)] = &[
    ((1, 0, 0), (1, 1, 0), None),
    ((256, 1, 0), (1, 1, 0), None),
    ((255, 1, 0), (1, 1, 0), Some(Ordering::Greater)),
    ((1, 2, 9), (2, 4, 7), Some(Ordering::Less)),
    (
        (34_359_738_367, 536_870_912, 0),
        (34_359_738_368, 536_870_912, 9),
        Some(Ordering::Less),
    ),
];

fn contact((sum, count, tie): Numbers) -> Option<Contact> {
    Contact::of(sum, count, tie)
}

fn ranked(one: Numbers, other: Numbers) -> Option<Ordering> {
    Some(rank(&contact(one)?, &contact(other)?))
}

#[test]
fn contacts_rank_by_exact_means_and_then_by_ties(rt: HostRuntime) {
    for &(one, other, order) in RANKED {
        assert_eq!(rt; (one, ranked(one, other)), (one, order));
    }
    assert!(rt; matches!(Threshold::new(5, 0), Err(ZeroDenominator)));
}
