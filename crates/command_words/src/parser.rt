ghost use Rattle.std.specs.Prelude.{◌≡◌, ◌↔◌, List, ℕ, All, IfOk, MatchResult, map, option_map, [], false};
ghost use Rattle.clap.specs.Words.{app_of, rule_of, found_of, first_value, kind_of};
ghost use Rattle.command_words.specs.Parser.{option_rule, parser_of};
ghost use Rattle.command_words.specs.Slots.{spelled, slot_of, ReadsOptions, RefusesOptions};
ghost use Rattle.command_words.specs.Texts.{texts};
ghost use Rattle.command_words.specs.Words.{IsBare};
ghost use Rattle.command_words.specs.declared.options.OptionName.{OptionName};

use crate::job::WordsFault;
use crate::options::{OptionName, Options};
use clap::error::ErrorKind;
use clap::{Arg, ArgMatches, Command, Error};
use std::alloc::{AllocError, Global};

/// The values of these options in words that give just these, each once: `--name=value` in one word,
/// or `--name` and the value in two.
pub fn parse<'a>(
    alloc: Global,
    command: &'a str,
    options: &[OptionName],
    words: &'a [String],
) -> Result<Options<'a>, WordsFault>
    requires { All (λ word. ¬ (IsBare word)) (texts words.now) }
    ensures { MatchResult result (λ r. ReadsOptions (map spelled options.now) (texts words.now) r.values)
        (RefusesOptions (map spelled options.now) (texts words.now)) }
{
    let parser = make_parser(alloc, command, options)?;
    match parser.try_get_matches_from(words) {
        Ok(matches) => Ok(values_in(&matches)),
        Err(error) => Err(fault_of(&error)),
    }
}

/// A parser of words that give just these options, each with one value.
fn make_parser<'a>(
    alloc: Global,
    command: &'a str,
    options: &[OptionName],
) -> Result<Command<'a>, AllocError>
    ensures { IfOk result (λ parser. app_of parser ≡ parser_of command.now (map spelled options.now)) }
{
    let mut parser = empty_parser(alloc, command);
    for option in options {
        parser = parser.arg(option_arg(alloc, *option))?;
    }
    Ok(parser)
}

/// A parser with no option, and no help or version.
fn empty_parser<'a>(alloc: Global, command: &'a str) -> Command<'a>
    ensures { app_of result ≡ parser_of command.now [] }
{
    Command::new(alloc, command)
        .no_binary_name(true)
        .disable_help_flag(true)
        .disable_version_flag(true)
}

/// An option as the parser takes it.
fn option_arg<'a>(alloc: Global, option: OptionName) -> Arg<'a>
    ensures rule { rule_of result ≡ option_rule (spelled option) }
    ensures local { result.global ≡ false }
{
    let name: &'a str = option.text();
    Arg::new(alloc, name).long(name).required(true)
}

/// What the parser found for each option.
fn values_in<'a>(matches: &ArgMatches<'a>) -> Options<'a>
    ensures { (option : OptionName) → option_map (λ value. value.now) (slot_of result.values option)
        ≡ first_value (found_of matches.now) (spelled option) }
{
    let values = [
        matches.get_str(OptionName::Volume.text()),
        matches.get_str(OptionName::Labels.text()),
        matches.get_str(OptionName::Tree.text()),
        matches.get_str(OptionName::Low.text()),
        matches.get_str(OptionName::Merge.text()),
        matches.get_str(OptionName::Chunk.text()),
        matches.get_str(OptionName::Workers.text()),
        matches.get_str(OptionName::Start.text()),
        matches.get_str(OptionName::Dims.text()),
    ];
    Options { values }
}

/// Why the parser refused words.
fn fault_of(error: &Error) -> WordsFault
    ensures { (result ≡ WordsFault.Memory) ↔ (kind_of error.now ≡ ErrorKind.OutOfMemory) }
{
    match error.kind() {
        ErrorKind::OutOfMemory => WordsFault::Memory,
        _ => WordsFault::NoSettings,
    }
}
