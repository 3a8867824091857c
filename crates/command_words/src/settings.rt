ghost use Rattle.std.specs.Prelude.{◌≡◌, ℕ, List, MatchOption};
ghost use Rattle.command_words.specs.Words.{BasinsSettings, SegmentSettings, MakeSettings, TrialSettings, Given, GivesBasins, GivesSegment, GivesMake, GivesTrial, GivesShow, AreOptionsOf, basins_options, segment_options, make_options, trial_options, show_options};
ghost use Rattle.command_words.specs.Slots.{AreSlots};

use crate::options::{OptionName, Options};
use mean_fraction::Threshold;
use seg_base::Dims;

/// The most lanes in which nodes are merged.
const MOST_WORKERS: u64 = 32;

/// The greatest number that a generated volume starts from.
const GREATEST_START: u64 = 4_294_967_295;

/// What the options of `basins` say.
#[derive(Clone, Copy)]
pub struct BasinsValues<'a> {
    pub volume: &'a str,
    pub labels: &'a str,
    pub low: u8,
}

/// What the options of `make` say.
#[derive(Clone, Copy)]
pub struct MakeValues<'a> {
    pub volume: &'a str,
    pub start: u32,
    pub dims: Dims,
}

/// What the options of `trial` say.
#[derive(Clone, Copy)]
pub struct TrialValues {
    pub start: u32,
    pub dims: Dims,
    pub low: u8,
    pub threshold: Threshold,
    pub chunk: [u32; 3],
    pub workers: u32,
}

/// What the options of `segment` say.
#[derive(Clone, Copy)]
pub struct SegmentValues<'a> {
    pub volume: &'a str,
    pub labels: &'a str,
    pub tree: &'a str,
    pub low: u8,
    pub threshold: Threshold,
    pub chunk: [u32; 3],
    pub workers: u32,
}

/// The options of `basins`.
pub const BASINS_OPTIONS: [OptionName; 3] = [
    OptionName::Volume,
    OptionName::Labels,
    OptionName::Low,
];

/// The options of `segment`.
pub const SEGMENT_OPTIONS: [OptionName; 7] = [
    OptionName::Volume,
    OptionName::Labels,
    OptionName::Tree,
    OptionName::Low,
    OptionName::Merge,
    OptionName::Chunk,
    OptionName::Workers,
];

/// The options of `make`.
pub const MAKE_OPTIONS: [OptionName; 3] = [OptionName::Volume, OptionName::Start, OptionName::Dims];

/// The options of `trial`.
pub const TRIAL_OPTIONS: [OptionName; 6] = [
    OptionName::Start,
    OptionName::Dims,
    OptionName::Low,
    OptionName::Merge,
    OptionName::Chunk,
    OptionName::Workers,
];

/// The options of `show`.
pub const SHOW_OPTIONS: [OptionName; 1] = [OptionName::Tree];

/// The settings of `basins`, where these options are settings.
pub fn basins_values<'a>(options: &Options<'a>) -> Option<BasinsValues<'a>>
    ensures { (given : List Given) → AreSlots given options.now.values → AreOptionsOf basins_options given → MatchOption result
        ((settings : BasinsSettings) → ¬ (GivesBasins given settings))
        (λ values. GivesBasins given (record { volume = values.volume.now; labels = values.labels.now; low = values.low })) }
{
    let volume = options.name(OptionName::Volume)?;
    let labels = options.name(OptionName::Labels)?;
    let low = options.number(OptionName::Low, 0, 255)?;
    if volume == labels {
        return None;
    }
    Some(BasinsValues {
        volume,
        labels,
        low: low as u8,
    })
}

/// The settings of `show`, where these options are settings: the name of a tree file.
pub fn show_values<'a>(options: &Options<'a>) -> Option<&'a str>
    ensures { (given : List Given) → AreSlots given options.now.values → AreOptionsOf show_options given → MatchOption result
        ((tree : List ℕ) → ¬ (GivesShow given tree))
        (λ tree. GivesShow given tree.now) }
{
    options.name(OptionName::Tree)
}

/// The settings of `segment`, where these options are settings.
pub fn segment_values<'a>(options: &Options<'a>) -> Option<SegmentValues<'a>>
    ensures { (given : List Given) → AreSlots given options.now.values → AreOptionsOf segment_options given → MatchOption result
        ((settings : SegmentSettings) → ¬ (GivesSegment given settings))
        (λ values. GivesSegment given (record {
          volume = values.volume.now;
          labels = values.labels.now;
          tree = values.tree.now;
          low = values.low;
          threshold = values.threshold;
          chunk = values.chunk;
          workers = values.workers;
        })) }
{
    let volume = options.name(OptionName::Volume)?;
    let labels = options.name(OptionName::Labels)?;
    let tree = options.name(OptionName::Tree)?;
    if volume == labels || volume == tree || labels == tree {
        return None;
    }
    let low = options.number(OptionName::Low, 0, 255)?;
    let threshold = options.fraction(OptionName::Merge)?;
    let chunk = options.sizes(OptionName::Chunk)?;
    let workers = options.number(OptionName::Workers, 1, MOST_WORKERS)?;
    Some(SegmentValues {
        volume,
        labels,
        tree,
        low: low as u8,
        threshold,
        chunk,
        workers: workers as u32,
    })
}

/// The settings of `make`, where these options are settings.
pub fn make_values<'a>(options: &Options<'a>) -> Option<MakeValues<'a>>
    ensures { (given : List Given) → AreSlots given options.now.values → AreOptionsOf make_options given → MatchOption result
        ((settings : MakeSettings) → ¬ (GivesMake given settings))
        (λ values. GivesMake given (record { volume = values.volume.now; start = values.start; axes = values.dims })) }
{
    let volume = options.name(OptionName::Volume)?;
    let start = options.number(OptionName::Start, 0, GREATEST_START)?;
    let dims = options.axes(OptionName::Dims)?;
    Some(MakeValues {
        volume,
        start: start as u32,
        dims,
    })
}

/// The settings of `trial`, where these options are settings.
pub fn trial_values(options: &Options<'_>) -> Option<TrialValues>
    ensures { (given : List Given) → AreSlots given options.now.values → AreOptionsOf trial_options given → MatchOption result
        ((settings : TrialSettings) → ¬ (GivesTrial given settings))
        (λ values. GivesTrial given (record {
          start = values.start;
          axes = values.dims;
          low = values.low;
          threshold = values.threshold;
          chunk = values.chunk;
          workers = values.workers;
        })) }
{
    let start = options.number(OptionName::Start, 0, GREATEST_START)?;
    let dims = options.axes(OptionName::Dims)?;
    let low = options.number(OptionName::Low, 0, 255)?;
    let threshold = options.fraction(OptionName::Merge)?;
    let chunk = options.sizes(OptionName::Chunk)?;
    let workers = options.number(OptionName::Workers, 1, MOST_WORKERS)?;
    Some(TrialValues {
        start: start as u32,
        dims,
        low: low as u8,
        threshold,
        chunk,
        workers: workers as u32,
    })
}
