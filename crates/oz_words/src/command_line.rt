//! The command that reads the words.

ghost use Rattle.std.specs.Prelude.{◌≡◌, IfOk, false};
ghost use Rattle.clap.specs.Words.{app_of, rule_of};
ghost use Rattle.oz_words.specs.Command.{AreActions, bare_app, oz_app, bare_option_rule, option_rule, action_rule, size_rule, numbers_from, seeds};
ghost use Rattle.oz_words.specs.Matches.{TakesWordsOfOz};

use clap::builder::ValueParser;
use clap::{Arg, ArgAction, Command, value_parser};
use std::alloc::{AllocError, Global};

static ACTIONS: [&str; 5] = ["run", "central", "gen", "save", "check"];

// `--name N`, given at most once, with a default.
fn option_of<'a>(alloc: Global, name: &'a str, parser: ValueParser<'a>, default: &'a str) -> Arg<'a>
    ensures rule { rule_of result ≡ option_rule name.entry.now parser.entry default.entry.now }
    ensures local { result.global ≡ false }
{
    bare_option_of(alloc, name, parser).default_value(default)
}

// `--name N`, given at most once.
fn bare_option_of<'a>(alloc: Global, name: &'a str, parser: ValueParser<'a>) -> Arg<'a>
    ensures rule { rule_of result ≡ bare_option_rule name.entry.now parser.entry }
    ensures local { result.global ≡ false }
{
    Arg::new(alloc, name)
        .long(name)
        .action(ArgAction::Set)
        .value_parser(parser)
}

// The word that is one of these names.
fn action_of<'a>(alloc: Global, names: &'a [&'a str]) -> Arg<'a>
    ensures rule { rule_of result ≡ action_rule names.entry }
    ensures local { result.global ≡ false }
{
    Arg::new(alloc, "action")
        .action(ArgAction::Set)
        .value_parser(names)
        .default_value("run")
}

// The number behind the action's name, which may be left out.
fn size_of<'a>(alloc: Global, parser: ValueParser<'a>) -> Arg<'a>
    ensures rule { rule_of result ≡ size_rule parser.entry }
    ensures local { result.global ≡ false }
{
    Arg::new(alloc, "number")
        .action(ArgAction::Set)
        .value_parser(parser)
}

// The numbers from the least to the most.
fn numbers<'a>(least: u32, most: u32) -> ValueParser<'a>
    ensures { result ≡ numbers_from least most }
{
    value_parser!(u64).range(i64::from(least)..=i64::from(most))
}

// All numbers of 64 bits.
fn seeds<'a>() -> ValueParser<'a>
    ensures { result ≡ seeds }
{
    value_parser!(u64)
}

// The names of the actions, at the lifetime that the caller wants.
fn action_names<'a>() -> &'a [&'a str]
    ensures { AreActions result.now }
{
    ACTIONS.as_slice()
}

// The command without its arguments.
fn bare_command<'a>(alloc: Global) -> Command<'a>
    ensures { app_of result ≡ bare_app }
{
    Command::new(alloc, "oz")
        .disable_help_flag(true)
        .disable_version_flag(true)
}

/// The command that takes `oz [--sites N] [--workers N] [--steps N] [--messages N] [--seed N] [run|central|gen|save|check] [NUMBER]`:
///
/// - `--sites N`, the number of sites of a run, from 1 to 64; 4 where it is left out;
/// - `--workers N`, the number of workers that drive the sites, from 0 to 64; 4 where it is left out;
/// - `--steps N`, the most steps of a site, or of the centralised machine, from 1 to 1,000,000,000; 1,000,000 where it is
///   left out;
/// - `--messages N`, the most messages that sites send to each other, from 0 to 4,000,000,000; 1,000,000 where it is left
///   out;
/// - `--seed N`, from 0 to 2^64 - 1, from which the order of a run is drawn; it may be left out, and then it is not drawn;
/// - `run`, `central`, `gen`, `save` or `check`, what to do; `run` where it is left out;
/// - a number from 1 to 1,000 behind it. `read_options` refuses it without `gen`, and `gen` without it.
///
/// Each is given at most once, and there is neither `--help` nor `--version`. The command borrows constants alone, so it
/// comes at the lifetime that its caller wants: `'static`, or that of the words that it is to read.
pub fn command<'a>(alloc: Global) -> Result<Command<'a>, AllocError>
    ensures app { (names : _) × AreActions names.now × IfOk result (λ c. app_of c ≡ oz_app names) }
    ensures words { IfOk result (λ c. TakesWordsOfOz (app_of c)) }
{
    let names = action_names();
    bare_command(alloc)
        .arg(option_of(alloc, "sites", numbers(1, 64), "4"))?
        .arg(option_of(alloc, "workers", numbers(0, 64), "4"))?
        .arg(option_of(alloc, "steps", numbers(1, 1_000_000_000), "1000000"))?
        .arg(option_of(alloc, "messages", numbers(0, 4_000_000_000), "1000000"))?
        .arg(bare_option_of(alloc, "seed", seeds()))?
        .arg(action_of(alloc, names))?
        .arg(size_of(alloc, numbers(1, 1_000)))
}
