//! What the words say.

ghost use Rattle.std.specs.Prelude.{◌≡◌, IfOk, codes, map, string_bytes};
ghost use Rattle.clap.specs.Words.{found_of, one_text};
ghost use Rattle.oz_words.specs.Places.{placeless_names};
ghost use Rattle.oz_words.specs.Command.{NumberOption, IsWithin, action_names, action_values};
ghost use Rattle.oz_words.specs.Matches.{HasValue, HasNumber, MayHaveSeed, MayHaveSize, IsParse};
ghost use Rattle.oz_words.specs.Words.{ReadsWords, InRange, IsActionInRange, IsNumberText, MayBeNumberText, NamesAction, ReadsAction};

use crate::command_line::command;
use clap::ArgMatches;
use clap::error::ErrorKind;
use std::alloc::Global;
use std::str::FromStr;

/// What to do: to run the text of the source over its sites, or on the centralised machine; or the large text of this size, 1 to
/// 1,000, over its sites; to run the text of the source over its sites and save that run; or to have the saved run of the source made
/// again.
#[derive(Clone, Copy, Debug, PartialEq, Eq)]
pub enum Action {
    Run,
    Central,
    Gen(u32),
    Save,
    Check,
}

/// The word that names what to do.
#[derive(Clone, Copy, Debug, PartialEq, Eq)]
pub(crate) enum ActionName {
    Run,
    Central,
    Gen,
    Save,
    Check,
}

/// A text that names no action.
#[derive(Clone, Copy, Debug, PartialEq, Eq)]
pub(crate) struct UnknownAction;

impl FromStr for ActionName {
    type Err = UnknownAction;

    ghost from_str_gives = { NamesAction };

    fn from_str(text: &str) -> Result<ActionName, UnknownAction> {
        match text {
            "run" => Ok(ActionName::Run),
            "central" => Ok(ActionName::Central),
            "gen" => Ok(ActionName::Gen),
            "save" => Ok(ActionName::Save),
            "check" => Ok(ActionName::Check),
            _ => Err(UnknownAction),
        }
    }
}

/// What the words ask for: what to do, the number of sites, 1 to 64, the number of workers that drive them, 0 to 64, the most
/// steps of each site, 1 to 1,000,000,000, and the most messages, 0 to 4,000,000,000. Without workers the sites take turns on
/// the caller's thread; so they do with a seed, from which the order of the turns is drawn, whatever the number of workers. On the
/// centralised machine there are no sites, workers, messages and seeds, and the steps are of the whole. A saved run that is made again
/// has numbers of its own in the place of these, and an order.
#[derive(Clone, Copy, Debug, PartialEq, Eq)]
pub struct Options {
    pub sites: u32,
    pub workers: u32,
    pub steps: u64,
    pub messages: u64,
    pub seed: Option<u64>,
    pub action: Action,
}

/// Why words give no options: they are refused, or memory is wanting.
#[derive(Clone, Copy, Debug, PartialEq, Eq)]
pub enum WordsError {
    Usage,
    Memory,
}

// The matches of the words.
fn parse<'a>(alloc: Global, words: &'a [String]) -> Result<ArgMatches<'a>, WordsError>
    ensures { IsParse (map string_bytes words.now) result }
{
    let command = match command(alloc) {
        Ok(command) => command,
        Err(_) => return Err(WordsError::Memory),
    };
    match command.try_get_matches_from(words) {
        Ok(matches) => Ok(matches),
        Err(error) => match error.kind() {
            ErrorKind::OutOfMemory => Err(WordsError::Memory),
            _ => Err(WordsError::Usage),
        },
    }
}

// The number of an option.
fn number_of(matches: &ArgMatches, name: &str) -> u64
    requires { (o : NumberOption) × (o.name ≡ name.now) × HasNumber matches.now o }
    ensures text { IsNumberText (one_text (found_of matches.now) name.now) result }
    ensures range { (o : NumberOption) → o.name ≡ name.now → HasNumber matches.now o → IsWithin o result }
{
    matches.get_one(name).unwrap()
}

// The seed, if there is one.
fn seed_in(matches: &ArgMatches) -> Option<u64>
    requires { MayHaveSeed matches.now }
    ensures { MayBeNumberText (one_text (found_of matches.now) (codes "seed")) result }
{
    matches.get_one("seed")
}

// What to do: the action's name, and the number where it takes one.
fn action_in(matches: &ArgMatches) -> Result<Action, WordsError>
    requires name { HasValue matches.now (codes "action") (action_values (placeless_names action_names)) }
    requires size { MayHaveSize matches.now }
    ensures text { ReadsAction (one_text (found_of matches.now) (codes "action")) (one_text (found_of matches.now) (codes "number")) result }
    ensures range { IfOk result IsActionInRange }
{
    let size: Option<u64> = matches.get_one("number");
    match (matches.get_one("action").unwrap(), size) {
        (ActionName::Run, None) => Ok(Action::Run),
        (ActionName::Central, None) => Ok(Action::Central),
        (ActionName::Gen, Some(size)) => Ok(Action::Gen(size as u32)),
        (ActionName::Save, None) => Ok(Action::Save),
        (ActionName::Check, None) => Ok(Action::Check),
        _ => Err(WordsError::Usage),
    }
}

/// The options that the words say, the first word being the program's name.
/// `Usage` comes exactly where the command refuses the words, or a number stands without `gen` or is missing with it.
pub fn read_options(alloc: Global, words: &[String]) -> Result<Options, WordsError>
    ensures text { ReadsWords (map string_bytes words.now) result }
    ensures range { IfOk result InRange }
{
    let matches = parse(alloc, words)?;
    let action = action_in(&matches)?;
    Ok(Options {
        sites: number_of(&matches, "sites") as u32,
        workers: number_of(&matches, "workers") as u32,
        steps: number_of(&matches, "steps"),
        messages: number_of(&matches, "messages"),
        seed: seed_in(&matches),
        action,
    })
}
