ghost use Rattle.std.specs.Prelude.{◌≡◌, ℕ, ◌<◌, List, MatchOption, IfSome, ◌≤◌};
ghost use Rattle.command_words.specs.Slots.{spelled, place, slot_of, AreSlots};
ghost use Rattle.agglo_model.specs.Axes.{Axes};
ghost use Rattle.agglo_model.specs.PairOrder.{Threshold as Fraction};
ghost use Rattle.command_words.specs.Words.{Given, HasName, HasNumber, HasFraction, HasSizes, HasAxes};

use crate::values::{is_name, parse_axes, parse_fraction, parse_number, parse_sizes};
use mean_fraction::Threshold;
use seg_base::Dims;

/// An option that some command has.
#[derive(Clone, Copy)]
pub enum OptionName {
    /// The name of a volume file.
    Volume,
    /// The name of a label file.
    Labels,
    /// The name of a merge tree file.
    Tree,
    /// The least affinity of an edge that the ascent follows.
    Low,
    /// The mean affinity from which on regions are merged, as a fraction.
    Merge,
    /// The lengths of the leaves of a cutting on x, y and z, in voxels.
    Chunk,
    /// In how many lanes nodes are merged.
    Workers,
    /// The number that a generated volume starts from.
    Start,
    /// The lengths of the axes x, y and z of a generated volume, in voxels.
    Dims,
}

impl OptionName {
    /// The name of the option, without the dashes before it.
    pub fn text(self) -> &'static str
        ensures { result.now ≡ spelled self }
    {
        match self {
            OptionName::Volume => "volume",
            OptionName::Labels => "labels",
            OptionName::Tree => "tree",
            OptionName::Low => "low",
            OptionName::Merge => "merge",
            OptionName::Chunk => "chunk",
            OptionName::Workers => "workers",
            OptionName::Start => "start",
            OptionName::Dims => "dims",
        }
    }

    /// The place of the option in a list of all.
    fn place(self) -> usize
        ensures value { result ≡ place self }
        ensures nine { result < 9 }
    {
        match self {
            OptionName::Volume => 0,
            OptionName::Labels => 1,
            OptionName::Tree => 2,
            OptionName::Low => 3,
            OptionName::Merge => 4,
            OptionName::Chunk => 5,
            OptionName::Workers => 6,
            OptionName::Start => 7,
            OptionName::Dims => 8,
        }
    }
}

/// What words give the options.
#[derive(Clone, Copy)]
pub struct Options<'a> {
    /// The value of each option, in the order of `OptionName`.
    pub values: [Option<&'a str>; 9],
}

impl<'a> Options<'a> {
    /// The value of an option, if it is given.
    pub fn value(&self, option: OptionName) -> Option<&'a str>
        ensures { result ≡ slot_of self.now.values option }
    {
        self.values[option.place()]
    }
}

impl<'a> Options<'a> {
    /// The name of a file that an option is given.
    pub fn name(&self, option: OptionName) -> Option<&'a str>
        ensures { (given : List Given) → AreSlots given self.now.values → MatchOption result
            ((file : List ℕ) → ¬ (HasName given (spelled option) file))
            (λ file. HasName given (spelled option) file.now) }
    {
        let word = self.value(option)?;
        if is_name(word) { Some(word) } else { None }
    }

    /// The number from `least` to `most` that an option is given.
    pub fn number(&self, option: OptionName, least: u64, most: u64) -> Option<u64>
        ensures range { IfSome result (λ n. n ≤ most) }
        ensures number { (given : List Given) → AreSlots given self.now.values → MatchOption result
            ((n : ℕ) → ¬ (HasNumber given (spelled option) least most n))
            (λ n. HasNumber given (spelled option) least most n) }
    {
        let word = self.value(option)?;
        parse_number(word, least, most)
    }

    /// The fraction that an option is given.
    pub fn fraction(&self, option: OptionName) -> Option<Threshold>
        ensures { (given : List Given) → AreSlots given self.now.values → MatchOption result
            ((t : Fraction) → ¬ (HasFraction given (spelled option) t))
            (λ t. HasFraction given (spelled option) t) }
    {
        let word = self.value(option)?;
        parse_fraction(word)
    }

    /// The three sizes that an option is given.
    pub fn sizes(&self, option: OptionName) -> Option<[u32; 3]>
        ensures { (given : List Given) → AreSlots given self.now.values → MatchOption result
            ((sizes : List ℕ) → ¬ (HasSizes given (spelled option) sizes))
            (λ sizes. HasSizes given (spelled option) sizes) }
    {
        let word = self.value(option)?;
        parse_sizes(word)
    }

    /// The axes that an option is given.
    pub fn axes(&self, option: OptionName) -> Option<Dims>
        ensures { (given : List Given) → AreSlots given self.now.values → MatchOption result
            ((axes : Axes) → ¬ (HasAxes given (spelled option) axes))
            (λ axes. HasAxes given (spelled option) axes) }
    {
        let word = self.value(option)?;
        parse_axes(word)
    }
}
