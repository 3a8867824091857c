//! Where in a list something was added a short time ago. Nothing is known of the places, so what stands there is
//! looked at before it is relied on.

ghost use Rattle.std.specs.Prelude.{◌≡◌, ◌<◌, vec_len};

use agglo_model::Memory;
use std::alloc::Global;

/// How many places are kept: 2^12. A table of twice the size is looked up more slowly, and finds hardly more.
const SLOTS: usize = 4096;

/// 2^64 by the golden ratio: the upper bits of a product with it are well spread.
const FACTOR: u64 = 0x9e37_79b9_7f4a_7c15;

/// Places in a list, by numbers that are made of what was added there.
#[derive(Drop)]
pub(crate) struct Recent {
    places: Vec<usize>,
    ghost whole: { vec_len places ≡ 4096 },
}

impl Recent {
    /// Nothing was added yet.
    pub(crate) fn new(alloc: Global) -> Result<Recent, Memory> {
        let places = Vec::from_elem(alloc, 0, SLOTS)?;
        Ok(Recent { places })
    }

    /// The place that was kept for this number, if no other took its slot.
    pub(crate) fn place(&self, number: u64) -> usize {
        self.places[slot(number)]
    }

    /// Keeps the place for this number.
    pub(crate) fn keep(&mut self, number: u64, place: usize) {
        self.places[slot(number)] = place;
    }
}

/// The slot of a number: the upper twelve bits of a product.
fn slot(number: u64) -> usize
    ensures { result < SLOTS }
{
    (number.wrapping_mul(FACTOR) >> 52) as usize
}
