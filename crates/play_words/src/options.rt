// The options of each command, read by clap.
ghost use Rattle.std.specs.Prelude.{◌≡◌, ◌≢◌, ◌⊎◌, map, IfOk, IfErr, IfSome, None, OnOk, Some, false, true};
ghost use Rattle.clap.specs.Values.{kind_of};
ghost use Rattle.clap.specs.Words.{app_of, found_of, is_simple_and_free, new_app, rows_of, rule_of};
ghost use Rattle.clap.specs.declared.error.kind.ErrorKind.TheVariants.{OutOfMemory};
ghost use Rattle.play_words.specs.Causes.{Explains};
ghost use Rattle.play_words.specs.Options.{app_by, options_of, options_refusal, required_option, takes_options, value_of, with_options};
ghost use Rattle.play_words.specs.Words.{IsChain, IsCheck, IsMake, IsPlay, IsShares, IsVerify, refusal, rows_read, IsCondition, IsBound};

use crate::Unread;
use crate::words::is;
use clap::{Arg, ArgAction, ArgMatches, Command, Error};
use std::alloc::{AllocError, Global};

// An option that has to be given, with one value.
fn required<'a>(alloc: Global, name: &'a str) -> Arg<'a>
    ensures rule { rule_of result ≡ required_option name.entry.now }
    ensures local { result.global ≡ false }
{
    Arg::new(alloc, name)
        .long(name)
        .required(true)
        .action(ArgAction::Set)
}

// A command of this name, with these options.
fn command<'a>(alloc: Global, name: &'a str, options: &[&'a str]) -> Result<Command<'a>, AllocError>
    ensures { IfOk result (λ command. app_of command ≡ with_options (new_app name.entry.now) (map (λ option. option.now) options.entry.now)) }
{
    let mut command = Command::new(alloc, name);
    for option in options {
        command = command.arg(required(alloc, option))?;
    }
    Ok(command)
}

// The options of each command.
const PLAY: [&str; 7] = [
    "config",
    "interface",
    "arrivals",
    "departures",
    "fates",
    "stats",
    "seed",
];

const CHECK: [&str; 2] = ["config", "interface"];

const MAKE: [&str; 8] = [
    "count",
    "config",
    "interface",
    "arrivals",
    "departures",
    "fates",
    "stats",
    "seed",
];

const VERIFY: [&str; 5] = ["config", "interface", "arrivals", "departures", "fates"];

const CHAIN: [&str; 12] = [
    "config",
    "interface",
    "arrivals",
    "departures",
    "fates",
    "stats",
    "seed",
    "next",
    "departures2",
    "fates2",
    "stats2",
    "path",
];

const CONDITION: [&str; 4] = ["config", "interface", "arrivals", "marked"];

const BOUND: [&str; 4] = ["config", "interface", "longest", "burst"];

/// Whose options are read.
#[derive(Clone, Copy)]
pub(crate) enum OptionsOf {
    Play,
    Check,
    Make,
    Verify,
    Chain,
    Condition,
    Bound,
}

// The command of clap that reads them.
fn command_of<'a>(alloc: Global, options: OptionsOf) -> Result<Command<'a>, AllocError>
    ensures { IfOk result (λ command. app_of command ≡ app_by options) }
{
    match options {
        OptionsOf::Play => command(alloc, "play", &PLAY),
        OptionsOf::Check => command(alloc, "check", &CHECK),
        OptionsOf::Make => command(alloc, "make", &MAKE),
        OptionsOf::Verify => command(alloc, "verify", &VERIFY),
        OptionsOf::Chain => command(alloc, "chain", &CHAIN),
        OptionsOf::Condition => command(alloc, "condition", &CONDITION),
        OptionsOf::Bound => command(alloc, "bound", &BOUND),
    }
}

// What clap reads of the words by this command, with its own error.
fn told<'a>(command: Command<'a>, words: &'a [String]) -> Result<ArgMatches<'a>, Error>
    requires { is_simple_and_free (app_of command) ≡ true }
    ensures taken { OnOk result (takes_options (app_of command.entry) words.entry.now ≡ true) }
    ensures read { IfOk result (λ m. rows_of (found_of m) ≡ options_of (app_of command.entry) words.entry.now) }
    ensures refused { IfErr result (λ e. kind_of e ≢ OutOfMemory → takes_options (app_of command.entry) words.entry.now ≡ false) }
{
    command.try_get_matches_from(words)
}

/// What clap reads of the words by these options, with its own error.
pub(crate) fn options_told<'a>(
    alloc: Global,
    options: OptionsOf,
    words: &'a [String],
) -> Result<ArgMatches<'a>, Error>
    ensures taken { OnOk result (takes_options (app_by options) words.now ≡ true) }
    ensures read { IfOk result (λ m. rows_of (found_of m) ≡ options_of (app_by options) words.now) }
    ensures refused { IfErr result (λ e. kind_of e ≢ OutOfMemory → takes_options (app_by options) words.now ≡ false) }
{
    told(command_of(alloc, options)?, words)
}

/// What clap reads of the words by these options.
pub(crate) fn options_matched<'a>(
    alloc: Global,
    options: OptionsOf,
    words: &'a [String],
) -> Result<ArgMatches<'a>, Unread>
    ensures taken { OnOk result (takes_options (app_by options) words.now ≡ true) }
    ensures read { IfOk result (λ m. rows_of (found_of m) ≡ options_of (app_by options) words.now) }
    ensures refused { IfErr result (Explains (options_refusal (app_by options) words.now)) }
{
    match options_told(alloc, options, words) {
        Ok(matches) => Ok(matches),
        Err(error) => Err(Unread::from(error)),
    }
}

/// The value of an option that was read, or no text.
pub(crate) fn value<'a>(matches: &ArgMatches<'a>, name: &str) -> &'a str
    ensures { result.now ≡ value_of name.now (rows_of (found_of matches.now)) }
{
    matches.get_str(name).unwrap_or("")
}

/// What clap makes of the options behind the command that the first word names, for a message on them: each value as it was read,
/// or clap's own error, also where `read_words` refuses the words by a later test. `None` exactly where the first word is no command.
/// An error is a refusal of the options, or want of memory (`OutOfMemory`). Takes the words' length in time and memory.
pub fn options_read<'a>(alloc: Global, words: &'a [String]) -> Option<Result<ArgMatches<'a>, Error>>
    ensures none { result ≡ None → refusal words.now ≡ Some 1 }
    ensures some { IfSome result (λ _. IsPlay words.now ⊎ IsCheck words.now ⊎ IsMake words.now ⊎ IsVerify words.now ⊎ IsShares words.now
        ⊎ IsChain words.now ⊎ IsCondition words.now ⊎ IsBound words.now) }
    ensures read { IfSome result (λ told. IfOk told (λ m. rows_of (found_of m) ≡ rows_read words.now)) }
    ensures refused { IfSome result (λ told. IfErr told (λ e. kind_of e ≢ OutOfMemory → refusal words.now ≡ Some 2)) }
{
    if is(words, 0, "play") {
        return Some(options_told(alloc, OptionsOf::Play, words));
    }
    if is(words, 0, "check") {
        return Some(options_told(alloc, OptionsOf::Check, words));
    }
    if is(words, 0, "make") {
        return Some(options_told(alloc, OptionsOf::Make, words));
    }
    if is(words, 0, "verify") {
        return Some(options_told(alloc, OptionsOf::Verify, words));
    }
    if is(words, 0, "shares") {
        return Some(options_told(alloc, OptionsOf::Play, words));
    }
    if is(words, 0, "chain") {
        return Some(options_told(alloc, OptionsOf::Chain, words));
    }
    if is(words, 0, "condition") {
        return Some(options_told(alloc, OptionsOf::Condition, words));
    }
    if is(words, 0, "bound") {
        return Some(options_told(alloc, OptionsOf::Bound, words));
    }
    None
}
