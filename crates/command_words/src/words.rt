ghost use Rattle.std.specs.Prelude.{◌≡◌, ◌∷◌, ◌↔◌, Err, All, IsTrue, codes, string_bytes};
ghost use Rattle.command_words.specs.Jobs.{AnswersWords};
ghost use Rattle.command_words.specs.Texts.{texts};
ghost use Rattle.command_words.specs.Words.{IsBare, MayBeSettings};

use crate::job::{Job, WordsFault};
use crate::parser::parse;
use crate::settings::{
    BASINS_OPTIONS, MAKE_OPTIONS, SEGMENT_OPTIONS, SHOW_OPTIONS, TRIAL_OPTIONS, basins_values,
    make_values, segment_values, show_values, trial_values,
};
use crate::values::cut_at;
use std::alloc::Global;

/// What the words after the program's name ask for: the name of a command, and its options in any order, each by
/// one word `--name=value` or by two.
///
/// Answers `NoSettings` for words that are no settings, and `Memory`. Words are refused without taking memory where
/// there is none, the first is no command, or another is `--` or a name with a `=` and nothing after it.
pub fn read_words(alloc: Global, words: &[String]) -> Result<Job, WordsFault>
    ensures answer { AnswersWords (texts words.now) result }
    ensures at_once { ¬ (MayBeSettings (texts words.now)) → result ≡ Err WordsFault.NoSettings }
{
    let [command, others @ ..] = words else {
        return Err(WordsFault::NoSettings);
    };
    if !are_plain(others) {
        return Err(WordsFault::NoSettings);
    }
    read_command(alloc, command.as_str(), others)
}

/// Whether each word may stand among options.
fn are_plain(words: &[String]) -> bool
    ensures { IsTrue result ↔ All (λ word. ¬ (IsBare (string_bytes word))) words.now }
{
    for word in words {
        if !is_plain(word.as_str()) {
            return false;
        }
    }
    true
}

/// Whether a word may stand among options: it is not `--`, nor a name with a `=` and nothing after it.
fn is_plain(word: &str) -> bool
    ensures { IsTrue result ↔ ¬ (IsBare word.now) }
{
    let Some(option) = word.strip_prefix("--") else {
        return true;
    };
    match cut_at(option, '=') {
        Some((_, value)) => !value.is_empty(),
        None => !option.is_empty(),
    }
}

/// The job of a command, whose options these words are.
fn read_command(alloc: Global, command: &str, words: &[String]) -> Result<Job, WordsFault>
    requires { All (λ word. ¬ (IsBare word)) (texts words.now) }
    ensures { AnswersWords (command.now ∷ texts words.now) result }
{
    match command {
        "basins" => read_basins(alloc, words),
        "segment" => read_segment(alloc, words),
        "make" => read_make(alloc, words),
        "trial" => read_trial(alloc, words),
        "show" => read_show(alloc, words),
        _ => Err(WordsFault::NoSettings),
    }
}

fn read_basins(alloc: Global, words: &[String]) -> Result<Job, WordsFault>
    requires { All (λ word. ¬ (IsBare word)) (texts words.now) }
    ensures { AnswersWords (codes "basins" ∷ texts words.now) result }
{
    let options = parse(alloc, "basins", &BASINS_OPTIONS, words)?;
    let Some(values) = basins_values(&options) else {
        return Err(WordsFault::NoSettings);
    };
    let volume = String::from_str(alloc, values.volume)?;
    let labels = String::from_str(alloc, values.labels)?;
    Ok(Job::Basins {
        volume,
        labels,
        low: values.low,
    })
}

fn read_segment(alloc: Global, words: &[String]) -> Result<Job, WordsFault>
    requires { All (λ word. ¬ (IsBare word)) (texts words.now) }
    ensures { AnswersWords (codes "segment" ∷ texts words.now) result }
{
    let options = parse(alloc, "segment", &SEGMENT_OPTIONS, words)?;
    let Some(values) = segment_values(&options) else {
        return Err(WordsFault::NoSettings);
    };
    let volume = String::from_str(alloc, values.volume)?;
    let labels = String::from_str(alloc, values.labels)?;
    let tree = String::from_str(alloc, values.tree)?;
    Ok(Job::Segment {
        volume,
        labels,
        tree,
        low: values.low,
        threshold: values.threshold,
        chunk: values.chunk,
        workers: values.workers,
    })
}

fn read_make(alloc: Global, words: &[String]) -> Result<Job, WordsFault>
    requires { All (λ word. ¬ (IsBare word)) (texts words.now) }
    ensures { AnswersWords (codes "make" ∷ texts words.now) result }
{
    let options = parse(alloc, "make", &MAKE_OPTIONS, words)?;
    let Some(values) = make_values(&options) else {
        return Err(WordsFault::NoSettings);
    };
    let volume = String::from_str(alloc, values.volume)?;
    Ok(Job::Make {
        volume,
        start: values.start,
        dims: values.dims,
    })
}

fn read_trial(alloc: Global, words: &[String]) -> Result<Job, WordsFault>
    requires { All (λ word. ¬ (IsBare word)) (texts words.now) }
    ensures { AnswersWords (codes "trial" ∷ texts words.now) result }
{
    let options = parse(alloc, "trial", &TRIAL_OPTIONS, words)?;
    let Some(values) = trial_values(&options) else {
        return Err(WordsFault::NoSettings);
    };
    let chunk = values.chunk;
    Ok(Job::Trial {
        start: values.start,
        dims: values.dims,
        low: values.low,
        threshold: values.threshold,
        chunk,
        workers: values.workers,
    })
}

fn read_show(alloc: Global, words: &[String]) -> Result<Job, WordsFault>
    requires { All (λ word. ¬ (IsBare word)) (texts words.now) }
    ensures { AnswersWords (codes "show" ∷ texts words.now) result }
{
    let options = parse(alloc, "show", &SHOW_OPTIONS, words)?;
    let Some(tree) = show_values(&options) else {
        return Err(WordsFault::NoSettings);
    };
    let tree = String::from_str(alloc, tree)?;
    Ok(Job::Show { tree })
}
