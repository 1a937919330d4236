// The command line.
ghost use Rattle.std.specs.Prelude.{◌≡◌, ◌<◌, length, map, Some, None, IfOk, IfErr, IfSome, OnOk, IsOk};
ghost use Rattle.std.specs.Str.{bytes_eq};
ghost use Rattle.line_text.specs.Numbers.{number};
ghost use Rattle.clap.specs.Words.{found_of, kind_of, rows_of};
ghost use Rattle.play_words.specs.Causes.{Explains, cause_of};
ghost use Rattle.play_words.specs.Words.{AreAllDistinct, AreDistinct, IsChain, IsCheck, IsMake, IsVerify, TakesPlayed, is_word, are_all_distinct, are_distinct_names, are_distinct_inputs, differ_from, inputs_refusal, links_refusal, play_refusal, chain_refusal, check_refusal, verify_refusal, make_refusal, refusal, rows_read, rows_refusal, count_in, seed_in, AreDistinctMarks, IsCondition, are_distinct_marks, condition_refusal, marking_refusal, IsBound, bound_refusal, number_to};
ghost use Rattle.play_words.specs.Read.{Reads, ReadsChain, ReadsInputs, ReadsLinks, ReadsNames, ReadsCheck, ReadsMake, ReadsRows, ReadsVerify, files_of, ReadsCondition, ReadsMarking, ReadsBound};
ghost use Rattle.play_words.specs.Kinds.{words_kind};
ghost use Rattle.play_words.specs.declared.words.Unread.TheVariants.{NoMemory};

use crate::options::{OptionsOf, options_matched, value};
use clap::ArgMatches;
use clap::error::ErrorKind;
use line_text::{Token, whole};
use std::alloc::{AllocError, Global};

/// Why the words are refused, in the order of the tests.
#[derive(Clone, Copy, Debug, PartialEq, Eq)]
pub enum WordsFault {
    /// There is no first word, or it is no command.
    NoCommand,
    /// The words behind the command are not its options, each given once with its value; so is a call for help.
    Options,
    /// The seed is not decimal digits, or it is 2^64 or more; or the count of `make` is not such digits, 1 to 1,000,000; or of `bound`
    /// the longest packet, 1 to 262,144, or the burst, 1 to 2^30.
    BadNumber,
    /// Two file names are equal as texts.
    NamesEqual,
}

impl WordsFault {
    /// The kind by which a status of code 2 names it.
    pub fn kind(self) -> u8
        ensures { result ≡ words_kind self }
    {
        match self {
            WordsFault::NoCommand => 1,
            WordsFault::Options => 2,
            WordsFault::NamesEqual => 3,
            WordsFault::BadNumber => 4,
        }
    }
}

/// Why words are not read.
#[derive(Clone, Copy, Debug, PartialEq, Eq)]
pub enum Unread {
    /// They are refused.
    Refused(WordsFault),
    /// Memory ran out as they were read.
    NoMemory,
}

impl From<AllocError> for Unread {
    ghost from_gives = { λ _ cause. cause ≡ NoMemory };

    fn from(_error: AllocError) -> Unread {
        Unread::NoMemory
    }
}

impl From<clap::Error> for Unread {
    ghost from_gives = { λ e cause. cause ≡ cause_of (kind_of e) };

    fn from(error: clap::Error) -> Unread {
        match error.kind() {
            ErrorKind::OutOfMemory => Unread::NoMemory,
            _ => Unread::Refused(WordsFault::Options),
        }
    }
}

/// The words of `play`: the names of its files, the interface to play, and the seed of its words.
#[derive(Clone, Copy)]
pub struct PlayWords<'a> {
    pub config: &'a str,
    pub interface: &'a str,
    pub arrivals: &'a str,
    pub departures: &'a str,
    pub fates: &'a str,
    pub stats: &'a str,
    pub seed: u64,
}

/// The words of `make`: how many packets to generate, and the words of the play of them.
#[derive(Clone, Copy)]
pub struct MakeWords<'a> {
    pub play: PlayWords<'a>,
    pub count: u32,
}

/// The words of `check`: the name of the configuration, and the interface asked for.
#[derive(Clone, Copy)]
pub struct CheckWords<'a> {
    pub config: &'a str,
    pub interface: &'a str,
}

/// The words of `verify`: the names of the files that are checked, and the interface that they are held to.
#[derive(Clone, Copy)]
pub struct VerifyWords<'a> {
    pub config: &'a str,
    pub interface: &'a str,
    pub arrivals: &'a str,
    pub departures: &'a str,
    pub fates: &'a str,
}

/// The words of `chain`: those of the play on the first link; and of the second the interface and the names of its files, of which
/// the arrivals are the departures of the first; and where the path of each packet goes.
#[derive(Clone, Copy)]
pub struct ChainWords<'a> {
    pub play: PlayWords<'a>,
    pub next: &'a str,
    pub departures2: &'a str,
    pub fates2: &'a str,
    pub stats2: &'a str,
    pub path: &'a str,
}

/// The words of `condition`: the names of its files, and the interface whose conditioners mark.
#[derive(Clone, Copy)]
pub struct ConditionWords<'a> {
    pub config: &'a str,
    pub interface: &'a str,
    pub arrivals: &'a str,
    pub marked: &'a str,
}

/// The words of `bound`: the name of the configuration, the interface asked for, and the bytes of its longest packet, 1 to 262,144, and
/// of a burst, 1 to 2^30.
#[derive(Clone, Copy)]
pub struct BoundWords<'a> {
    pub config: &'a str,
    pub interface: &'a str,
    pub longest: u32,
    pub burst: u32,
}

/// The most packets that are made, and the most bytes of a packet and of a burst.
const MOST: u32 = 1_000_000;

const MOST_LONGEST: u32 = 262_144;

const MOST_BURST: u32 = 1_073_741_824;

/// What the words ask for.
#[derive(Clone, Copy)]
pub enum Command<'a> {
    /// To play a capture.
    Play(PlayWords<'a>),
    /// To say what a configuration means.
    Check(CheckWords<'a>),
    /// To generate a capture, and to play it.
    Make(MakeWords<'a>),
    /// To check given files.
    Verify(VerifyWords<'a>),
    /// To play a capture, and to say how far the shares of sibling classes lay apart.
    Shares(PlayWords<'a>),
    /// To play a capture on one link, and what leaves that on a second.
    Chain(ChainWords<'a>),
    /// To mark a capture.
    Condition(ConditionWords<'a>),
    /// To say how late a packet of each leaf can be sent.
    Bound(BoundWords<'a>),
}

// Whether a word is there and is this text, which isn't empty.
pub(crate) fn is(words: &[String], i: usize, text: &str) -> bool
    requires { 0 < length text.now }
    ensures { result ≡ is_word words.now i text.now }
{
    match words.get(i) {
        Some(word) => word.as_str() == text,
        None => false,
    }
}

// Whether a text differs from three others.
fn differs(a: &str, b: &str, c: &str, d: &str) -> bool
    ensures { result ≡ differ_from a.now b.now c.now d.now }
{
    a != b && a != c && a != d
}

// Whether no two file names are equal.
fn are_distinct(words: &PlayWords<'_>) -> bool
    ensures { result ≡ are_distinct_names words.now.config.now words.now.arrivals.now words.now.departures.now words.now.fates.now words.now.stats.now }
{
    words.config != words.arrivals
        && differs(words.config, words.departures, words.fates, words.stats)
        && differs(words.arrivals, words.departures, words.fates, words.stats)
        && words.departures != words.fates
        && words.departures != words.stats
        && words.fates != words.stats
}

// Whether no two names of files that are checked are equal.
fn are_distinct_inputs(words: &VerifyWords<'_>) -> bool
    ensures { result ≡ are_distinct_inputs words.now.config.now words.now.arrivals.now words.now.departures.now words.now.fates.now }
{
    differs(words.config, words.arrivals, words.departures, words.fates)
        && words.arrivals != words.departures
        && words.arrivals != words.fates
        && words.departures != words.fates
}

// Whether no two of these texts are equal.
fn are_all_distinct(names: &[&str]) -> bool
    ensures { result ≡ are_all_distinct (map (λ name. name.now) names.now) }
{
    if names.is_empty() {
        return true;
    }
    let (name, others) = (names[0], &names[1..]);
    !others.contains(&name) && are_all_distinct(others)
}

// Whether no two names of the files of a chain are equal.
fn are_distinct_links(words: &ChainWords<'_>) -> bool
    ensures { result ≡ are_all_distinct (files_of words.now) }
{
    let play = words.play;
    are_all_distinct(&[
        play.config,
        play.arrivals,
        play.departures,
        play.fates,
        play.stats,
        words.departures2,
        words.fates2,
        words.stats2,
        words.path,
    ])
}

// Whether no two names of files of a marking are equal.
fn are_distinct_marks(words: &ConditionWords<'_>) -> bool
    ensures { result ≡ are_distinct_marks words.now.config.now words.now.arrivals.now words.now.marked.now }
{
    words.config != words.arrivals && words.config != words.marked && words.arrivals != words.marked
}

// The number that decimal digits write.
fn decimal(text: &str) -> Option<u64>
    ensures { result ≡ number 10 text.now }
{
    let parts = text.as_bytes();
    if parts.len() >= 2 && parts[1] == b'x' {
        return None;
    }
    whole(&Token { index: 1, parts })
}

/// The number that a text gives: decimal digits, 1 to `most`. `None` exactly where it is anything else.
pub fn number_to(text: &str, most: u32) -> Option<u32>
    ensures { result ≡ number_to most (number 10 text.now) }
{
    match decimal(text) {
        Some(number) => {
            if 1 <= number && number <= most as u64 {
                Some(number as u32)
            } else {
                None
            }
        }
        None => None,
    }
}

/// The count of packets that a text gives: decimal digits, 1 to 1,000,000. `None` exactly where it is anything else.
pub fn count(text: &str) -> Option<u32>
    ensures { result ≡ count_in (number 10 text.now) }
{
    number_to(text, MOST)
}

// The names and the seed of options that were read; none where the seed is no such number.
fn seeded<'a>(matches: &ArgMatches<'a>) -> Option<PlayWords<'a>>
    ensures none { result ≡ None → seed_in (rows_of (found_of matches.now)) ≡ None }
    ensures read { IfSome result (λ w. ReadsNames (rows_of (found_of matches.now)) w) }
{
    let Some(seed) = decimal(value(matches, "seed")) else {
        return None;
    };
    Some(PlayWords {
        config: value(matches, "config"),
        interface: value(matches, "interface"),
        arrivals: value(matches, "arrivals"),
        departures: value(matches, "departures"),
        fates: value(matches, "fates"),
        stats: value(matches, "stats"),
        seed,
    })
}

// The names and the seed of options that were read, for a play.
fn names_read<'a>(matches: &ArgMatches<'a>) -> Result<PlayWords<'a>, WordsFault>
    ensures accepted { OnOk result (rows_refusal (rows_of (found_of matches.now)) ≡ None) }
    ensures refused { IfErr result (λ fault. rows_refusal (rows_of (found_of matches.now)) ≡ Some (words_kind fault)) }
    ensures read { IfOk result (λ w. ReadsRows (rows_of (found_of matches.now)) w) }
{
    let Some(read) = seeded(matches) else {
        return Err(WordsFault::BadNumber);
    };
    if !are_distinct(&read) {
        return Err(WordsFault::NamesEqual);
    }
    Ok(read)
}

// The names and the seed of options that were read, for two links.
fn links_read<'a>(matches: &ArgMatches<'a>) -> Result<ChainWords<'a>, WordsFault>
    ensures accepted { OnOk result (links_refusal (rows_of (found_of matches.now)) ≡ None) }
    ensures refused { IfErr result (λ fault. links_refusal (rows_of (found_of matches.now)) ≡ Some (words_kind fault)) }
    ensures read { IfOk result (λ w. ReadsLinks (rows_of (found_of matches.now)) w) }
{
    let Some(play) = seeded(matches) else {
        return Err(WordsFault::BadNumber);
    };
    let read = ChainWords {
        play,
        next: value(matches, "next"),
        departures2: value(matches, "departures2"),
        fates2: value(matches, "fates2"),
        stats2: value(matches, "stats2"),
        path: value(matches, "path"),
    };
    if !are_distinct_links(&read) {
        return Err(WordsFault::NamesEqual);
    }
    Ok(read)
}

// Reads the options of `play`, which are those of `shares`.
fn play_words<'a>(alloc: Global, words: &'a [String]) -> Result<PlayWords<'a>, Unread>
    requires { TakesPlayed words.now }
    ensures accepted { OnOk result (play_refusal words.now ≡ None) }
    ensures refused { IfErr result (Explains (play_refusal words.now)) }
    ensures read { IfOk result (λ w. ReadsRows (rows_read words.now) w) }
{
    let matches = options_matched(alloc, OptionsOf::Play, words)?;
    match names_read(&matches) {
        Ok(read) => Ok(read),
        Err(fault) => Err(Unread::Refused(fault)),
    }
}

// Reads the options of `make`.
fn make_words<'a>(alloc: Global, words: &'a [String]) -> Result<MakeWords<'a>, Unread>
    requires { IsMake words.now }
    ensures accepted { OnOk result (make_refusal words.now ≡ None) }
    ensures refused { IfErr result (Explains (make_refusal words.now)) }
    ensures read { IfOk result (λ w. ReadsMake words.now w) }
{
    let matches = options_matched(alloc, OptionsOf::Make, words)?;
    let Some(count) = count(value(&matches, "count")) else {
        return Err(Unread::Refused(WordsFault::BadNumber));
    };
    match names_read(&matches) {
        Ok(play) => Ok(MakeWords { play, count }),
        Err(fault) => Err(Unread::Refused(fault)),
    }
}

// Reads the options of `chain`.
fn chain_words<'a>(alloc: Global, words: &'a [String]) -> Result<ChainWords<'a>, Unread>
    requires { IsChain words.now }
    ensures accepted { OnOk result (chain_refusal words.now ≡ None) }
    ensures refused { IfErr result (Explains (chain_refusal words.now)) }
    ensures read { IfOk result (λ w. ReadsChain words.now w) }
{
    let matches = options_matched(alloc, OptionsOf::Chain, words)?;
    match links_read(&matches) {
        Ok(read) => Ok(read),
        Err(fault) => Err(Unread::Refused(fault)),
    }
}

// Reads the options of `check`.
fn check_words<'a>(alloc: Global, words: &'a [String]) -> Result<CheckWords<'a>, Unread>
    requires { IsCheck words.now }
    ensures accepted { OnOk result (check_refusal words.now ≡ None) }
    ensures refused { IfErr result (Explains (check_refusal words.now)) }
    ensures read { IfOk result (λ w. ReadsCheck words.now w) }
{
    let matches = options_matched(alloc, OptionsOf::Check, words)?;
    let (config, interface) = (value(&matches, "config"), value(&matches, "interface"));
    Ok(CheckWords { config, interface })
}

// The names of options that were read.
fn inputs_read<'a>(matches: &ArgMatches<'a>) -> Result<VerifyWords<'a>, WordsFault>
    ensures accepted { OnOk result (inputs_refusal (rows_of (found_of matches.now)) ≡ None) }
    ensures refused { IfErr result (λ fault. inputs_refusal (rows_of (found_of matches.now)) ≡ Some (words_kind fault)) }
    ensures read { IfOk result (λ w. ReadsInputs (rows_of (found_of matches.now)) w) }
{
    let read = VerifyWords {
        config: value(matches, "config"),
        interface: value(matches, "interface"),
        arrivals: value(matches, "arrivals"),
        departures: value(matches, "departures"),
        fates: value(matches, "fates"),
    };
    if !are_distinct_inputs(&read) {
        return Err(WordsFault::NamesEqual);
    }
    Ok(read)
}

// Reads the options of `verify`.
fn verify_words<'a>(alloc: Global, words: &'a [String]) -> Result<VerifyWords<'a>, Unread>
    requires { IsVerify words.now }
    ensures accepted { OnOk result (verify_refusal words.now ≡ None) }
    ensures refused { IfErr result (Explains (verify_refusal words.now)) }
    ensures read { IfOk result (λ w. ReadsVerify words.now w) }
{
    let matches = options_matched(alloc, OptionsOf::Verify, words)?;
    match inputs_read(&matches) {
        Ok(read) => Ok(read),
        Err(fault) => Err(Unread::Refused(fault)),
    }
}

// The names of options that were read.
fn marking_read<'a>(matches: &ArgMatches<'a>) -> Result<ConditionWords<'a>, WordsFault>
    ensures accepted { OnOk result (marking_refusal (rows_of (found_of matches.now)) ≡ None) }
    ensures refused { IfErr result (λ fault. marking_refusal (rows_of (found_of matches.now)) ≡ Some (words_kind fault)) }
    ensures read { IfOk result (λ w. ReadsMarking (rows_of (found_of matches.now)) w) }
{
    let read = ConditionWords {
        config: value(matches, "config"),
        interface: value(matches, "interface"),
        arrivals: value(matches, "arrivals"),
        marked: value(matches, "marked"),
    };
    if !are_distinct_marks(&read) {
        return Err(WordsFault::NamesEqual);
    }
    Ok(read)
}

// Reads the options of `condition`.
fn condition_words<'a>(alloc: Global, words: &'a [String]) -> Result<ConditionWords<'a>, Unread>
    requires { IsCondition words.now }
    ensures accepted { OnOk result (condition_refusal words.now ≡ None) }
    ensures refused { IfErr result (Explains (condition_refusal words.now)) }
    ensures read { IfOk result (λ w. ReadsCondition words.now w) }
{
    let matches = options_matched(alloc, OptionsOf::Condition, words)?;
    match marking_read(&matches) {
        Ok(read) => Ok(read),
        Err(fault) => Err(Unread::Refused(fault)),
    }
}

// Reads the options of `bound`.
fn bound_words<'a>(alloc: Global, words: &'a [String]) -> Result<BoundWords<'a>, Unread>
    requires { IsBound words.now }
    ensures accepted { OnOk result (bound_refusal words.now ≡ None) }
    ensures refused { IfErr result (Explains (bound_refusal words.now)) }
    ensures read { IfOk result (λ w. ReadsBound words.now w) }
{
    let matches = options_matched(alloc, OptionsOf::Bound, words)?;
    let Some(longest) = number_to(value(&matches, "longest"), MOST_LONGEST) else {
        return Err(Unread::Refused(WordsFault::BadNumber));
    };
    let Some(burst) = number_to(value(&matches, "burst"), MOST_BURST) else {
        return Err(Unread::Refused(WordsFault::BadNumber));
    };
    let (config, interface) = (value(&matches, "config"), value(&matches, "interface"));
    Ok(BoundWords {
        config,
        interface,
        longest,
        burst,
    })
}

/// Reads the words behind the program's name: `play --config C --interface I --arrivals A --departures D --fates T --stats Z
/// --seed N`, `shares` with the same options, `make --count K` with the same options, `check --config C --interface I`, `verify
/// --config C --interface I --arrivals A --departures D --fates T`, `chain` with the options of `play` and `--next J --departures2 D2
/// --fates2 T2 --stats2 Z2 --path P`, `condition --config C --interface I --arrivals A --marked M`, or `bound --config C --interface I
/// --longest L --burst B`. The options stand in any order, each once, as `--name VALUE` or `--name=VALUE`. The seed is one or more decimal digits, below 2^64, and the count such digits, 1 to
/// 1,000,000; L is such digits, 1 to 262,144, and B, 1 to 2^30. No two of the file names C, A, D, T, Z, D2, T2, Z2, P and M are equal as texts. A refusal is the first test that fails, in
/// the order of `WordsFault`.
pub fn read_words<'a>(alloc: Global, words: &'a [String]) -> Result<Command<'a>, Unread>
    ensures accepted { OnOk result (refusal words.now ≡ None) }
    ensures refused { IfErr result (Explains (refusal words.now)) }
    ensures read { IfOk result (λ command. Reads words.now command) }
{
    if is(words, 0, "play") {
        return match play_words(alloc, words) {
            Ok(read) => Ok(Command::Play(read)),
            Err(cause) => Err(cause),
        };
    }
    if is(words, 0, "check") {
        return match check_words(alloc, words) {
            Ok(read) => Ok(Command::Check(read)),
            Err(cause) => Err(cause),
        };
    }
    if is(words, 0, "make") {
        return match make_words(alloc, words) {
            Ok(read) => Ok(Command::Make(read)),
            Err(cause) => Err(cause),
        };
    }
    if is(words, 0, "verify") {
        return match verify_words(alloc, words) {
            Ok(read) => Ok(Command::Verify(read)),
            Err(cause) => Err(cause),
        };
    }
    if is(words, 0, "shares") {
        return match play_words(alloc, words) {
            Ok(read) => Ok(Command::Shares(read)),
            Err(cause) => Err(cause),
        };
    }
    if is(words, 0, "chain") {
        return match chain_words(alloc, words) {
            Ok(read) => Ok(Command::Chain(read)),
            Err(cause) => Err(cause),
        };
    }
    if is(words, 0, "condition") {
        return match condition_words(alloc, words) {
            Ok(read) => Ok(Command::Condition(read)),
            Err(cause) => Err(cause),
        };
    }
    if is(words, 0, "bound") {
        return match bound_words(alloc, words) {
            Ok(read) => Ok(Command::Bound(read)),
            Err(cause) => Err(cause),
        };
    }
    Err(Unread::Refused(WordsFault::NoCommand))
}
