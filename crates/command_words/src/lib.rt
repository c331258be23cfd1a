//! The command line: the words that the program takes, as `clap` reads them, and what they say.
#![tactic(auto)]

ghost use Rattle.std.specs.Prelude.{◌≡◌, ◌↔◌, [], map, false, string_bytes, Err, Some};
ghost use Rattle.std.specs.Prelude.{IfOk, IfSome, IsTrue, codes, option_map};
ghost use Rattle.clap.specs.Words.{rule_of, subcommand_of, subcommand_rows_of, first_of, rows_of, found_of};
ghost use Rattle.command_words.specs.Command.{argument, option, number, flag, run_app, plan_app, code_app, sample_app};
ghost use Rattle.command_words.specs.Command.{build_app, exec_app, NamesBuild, NamesObject, build_of, object_of};
ghost use Rattle.command_words.specs.Command.{uncached_app, bare_app, wgcc_app, IsCommandOf, TakesWords};
ghost use Rattle.command_words.specs.Command.{IsNumberFound, IsNumberAt};
ghost use Rattle.command_words.specs.Command.{NamesFiles, HasFlag, IsAsked, Asks, AskFor, files_of, request_of};

use clap::error::ErrorKind;
use clap::{Arg, ArgAction, ArgMatches, Command, value_parser};
use std::alloc::{AllocError, Global};
use thiserror::Error;

// A required argument.
fn argument<'a>(alloc: Global, name: &'a str) -> Arg<'a>
    ensures rule { rule_of result ≡ argument name.entry.now }
    ensures local { result.global ≡ false }
{
    Arg::new(alloc, name).required(true).action(ArgAction::Set)
}

// An option with a number of 64 bits.
fn option<'a>(alloc: Global, name: &'a str) -> Arg<'a>
    ensures rule { rule_of result ≡ option name.entry.now }
    ensures local { result.global ≡ false }
{
    Arg::new(alloc, name)
        .long(name)
        .action(ArgAction::Set)
        .value_parser(value_parser!(u64))
}

// A required number of 32 bits.
fn number<'a>(alloc: Global, name: &'a str) -> Arg<'a>
    ensures rule { rule_of result ≡ number name.entry.now }
    ensures local { result.global ≡ false }
{
    Arg::new(alloc, name)
        .required(true)
        .action(ArgAction::Set)
        .value_parser(value_parser!(u32))
}

// A flag, which has no value of its own.
fn flag<'a>(alloc: Global, name: &'a str) -> Arg<'a>
    ensures rule { rule_of result ≡ flag name.entry.now }
    ensures local { result.global ≡ false }
{
    Arg::new(alloc, name).long(name).action(ArgAction::SetTrue)
}

// `run` without its flag.
fn uncached_command<'a>(alloc: Global) -> Result<Command<'a>, AllocError>
    ensures { IfOk result (IsCommandOf uncached_app) }
{
    Command::new(alloc, "run")
        .arg(argument(alloc, "SOURCE"))?
        .arg(argument(alloc, "LAUNCH"))?
        .arg(option(alloc, "lanes"))?
        .arg(option(alloc, "turns"))
}

fn run_command<'a>(alloc: Global) -> Result<Command<'a>, AllocError>
    ensures { IfOk result (IsCommandOf run_app) }
{
    uncached_command(alloc)?.arg(flag(alloc, "cache"))
}

fn plan_command<'a>(alloc: Global) -> Result<Command<'a>, AllocError>
    ensures { IfOk result (IsCommandOf plan_app) }
{
    Command::new(alloc, "plan")
        .arg(argument(alloc, "SOURCE"))?
        .arg(argument(alloc, "LAUNCH"))
}

fn code_command<'a>(alloc: Global) -> Result<Command<'a>, AllocError>
    ensures { IfOk result (IsCommandOf code_app) }
{
    Command::new(alloc, "code")
        .arg(argument(alloc, "SOURCE"))?
        .arg(argument(alloc, "LAUNCH"))?
        .arg(option(alloc, "lanes"))
}

fn sample_command<'a>(alloc: Global) -> Result<Command<'a>, AllocError>
    ensures { IfOk result (IsCommandOf sample_app) }
{
    Command::new(alloc, "sample").arg(number(alloc, "NUMBER"))
}

fn build_command<'a>(alloc: Global) -> Result<Command<'a>, AllocError>
    ensures { IfOk result (IsCommandOf build_app) }
{
    Command::new(alloc, "build")
        .arg(argument(alloc, "SOURCE"))?
        .arg(argument(alloc, "LAUNCH"))?
        .arg(argument(alloc, "OBJECT"))?
        .arg(option(alloc, "lanes"))
}

fn exec_command<'a>(alloc: Global) -> Result<Command<'a>, AllocError>
    ensures { IfOk result (IsCommandOf exec_app) }
{
    Command::new(alloc, "exec")
        .arg(argument(alloc, "OBJECT"))?
        .arg(argument(alloc, "LAUNCH"))?
        .arg(option(alloc, "turns"))
}

fn bare_command<'a>(alloc: Global) -> Command<'a>
    ensures { IsCommandOf bare_app result }
{
    Command::new(alloc, "wgcc")
        .no_binary_name(true)
        .disable_help_flag(true)
        .disable_help_subcommand(true)
        .disable_version_flag(true)
        .subcommand_required(true)
}

fn wgcc_command<'a>(alloc: Global) -> Result<Command<'a>, AllocError>
    ensures { IfOk result (IsCommandOf wgcc_app) }
{
    let run = run_command(alloc)?;
    let plan = plan_command(alloc)?;
    let code = code_command(alloc)?;
    let sample = sample_command(alloc)?;
    let build = build_command(alloc)?;
    let exec = exec_command(alloc)?;
    bare_command(alloc)
        .subcommand(run)?
        .subcommand(plan)?
        .subcommand(code)?
        .subcommand(sample)?
        .subcommand(build)?
        .subcommand(exec)
}

/// Why words are not read.
#[derive(Clone, Copy, PartialEq, Eq, Debug, Error)]
pub enum WordsError {
    /// The command does not take the words.
    #[error("usage")]
    Usage,
    #[error("out of memory")]
    Memory,
}

/// The names of the source and of the launch file, and the numbers of the options that are given.
#[derive(Clone, Copy)]
pub struct FileWords<'a> {
    pub source: &'a str,
    pub launch: &'a str,
    pub lanes: Option<u64>,
    pub turns: Option<u64>,
}

/// The names of the source, of the launch file and of the object file that is saved, and the number of
/// the option if it is given.
#[derive(Clone, Copy)]
pub struct BuildWords<'a> {
    pub source: &'a str,
    pub launch: &'a str,
    pub object: &'a str,
    pub lanes: Option<u64>,
}

/// The names of the object file and of the launch file, and the number of the option if it is given.
#[derive(Clone, Copy)]
pub struct ObjectWords<'a> {
    pub object: &'a str,
    pub launch: &'a str,
    pub turns: Option<u64>,
}

/// What the words ask for.
#[derive(Clone, Copy)]
pub enum Words<'a> {
    /// `run SOURCE LAUNCH [--lanes N] [--turns N]`
    Run(FileWords<'a>),
    /// `run SOURCE LAUNCH [--lanes N] [--turns N] --cache`
    Cached(FileWords<'a>),
    /// `plan SOURCE LAUNCH`
    Plan(FileWords<'a>),
    /// `code SOURCE LAUNCH [--lanes N]`
    Code(FileWords<'a>),
    /// `sample NUMBER`
    Sample(u32),
    /// `build SOURCE LAUNCH OBJECT [--lanes N]`
    Build(BuildWords<'a>),
    /// `exec OBJECT LAUNCH [--turns N]`
    Exec(ObjectWords<'a>),
}

fn matches_of<'a>(alloc: Global, words: &'a [String]) -> Result<ArgMatches<'a>, WordsError>
    ensures usage { result ≡ Err WordsError.Usage → TakesWords (map string_bytes words.now) → ⊥ }
    ensures taken { IfOk result (λ _. TakesWords (map string_bytes words.now)) }
    ensures found { IfOk result (λ m. subcommand_rows_of m ≡ subcommand_of wgcc_app (map string_bytes words.now)) }
{
    match wgcc_command(alloc) {
        Err(_) => Err(WordsError::Memory),
        Ok(command) => match command.try_get_matches_from(words) {
            Ok(matches) => Ok(matches),
            Err(error) => {
                if error.kind() == ErrorKind::OutOfMemory {
                    Err(WordsError::Memory)
                } else {
                    Err(WordsError::Usage)
                }
            }
        },
    }
}

// The number of an option, where it is given; `None` where its text is no number, which the
// option's parser has ruled out.
fn number_found(matches: &ArgMatches<'_>, id: &str) -> Option<Option<u64>>
    ensures { IfSome result (IsNumberFound id.now (found_of matches.now)) }
{
    if !matches.contains_id(id) {
        return Some(None);
    }
    match matches.get_one::<u64>(id) {
        Some(number) => Some(Some(number)),
        None => None,
    }
}

fn number_at(matches: &ArgMatches<'_>, id: &str) -> Option<Option<u64>>
    ensures { IfSome result (IsNumberAt id.now (rows_of (found_of matches.now))) }
{
    number_found(matches, id)
}

// The number of an argument that is needed.
fn needed_number_found(matches: &ArgMatches<'_>, id: &str) -> Option<u32>
    ensures { IfSome result (λ n. IsNumberFound id.now (found_of matches.now) (Some n)) }
{
    match matches.get_one::<u32>(id) {
        Some(number) => Some(number),
        None => None,
    }
}

fn needed_number_at(matches: &ArgMatches<'_>, id: &str) -> Option<u32>
    ensures { IfSome result (λ n. IsNumberAt id.now (rows_of (found_of matches.now)) (Some n)) }
{
    needed_number_found(matches, id)
}

fn text_at<'a>(matches: &ArgMatches<'a>, id: &str) -> Option<&'a str>
    ensures { option_map (λ s. s.now) result ≡ first_of id.now (rows_of (found_of matches.now)) }
{
    matches.get_str(id)
}

fn file_words<'a>(matches: &ArgMatches<'a>) -> Option<FileWords<'a>>
    ensures { IfSome result (λ w. NamesFiles (rows_of (found_of matches.now)) (files_of w)) }
{
    let source = text_at(matches, "SOURCE")?;
    let launch = text_at(matches, "LAUNCH")?;
    let lanes = number_at(matches, "lanes")?;
    let turns = number_at(matches, "turns")?;
    Some(FileWords {
        source,
        launch,
        lanes,
        turns,
    })
}

// Whether a flag is given.
fn is_given(matches: &ArgMatches<'_>, id: &str) -> bool
    ensures { IsTrue result ↔ HasFlag id.now (rows_of (found_of matches.now)) }
{
    match text_at(matches, id) {
        Some(text) => text == "true",
        None => false,
    }
}

// What `run` asks for, with the flag and without.
fn run_words<'a>(matches: &ArgMatches<'a>) -> Option<Words<'a>>
    ensures { IfSome result (λ w. IsAsked (codes "run") (rows_of (found_of matches.now)) (request_of w)) }
{
    let files = file_words(matches)?;
    if is_given(matches, "cache") {
        Some(Words::Cached(files))
    } else {
        Some(Words::Run(files))
    }
}

fn build_words<'a>(matches: &ArgMatches<'a>) -> Option<BuildWords<'a>>
    ensures { IfSome result (λ w. NamesBuild (rows_of (found_of matches.now)) (build_of w)) }
{
    let source = text_at(matches, "SOURCE")?;
    let launch = text_at(matches, "LAUNCH")?;
    let object = text_at(matches, "OBJECT")?;
    let lanes = number_at(matches, "lanes")?;
    Some(BuildWords {
        source,
        launch,
        object,
        lanes,
    })
}

fn object_words<'a>(matches: &ArgMatches<'a>) -> Option<ObjectWords<'a>>
    ensures { IfSome result (λ w. NamesObject (rows_of (found_of matches.now)) (object_of w)) }
{
    let object = text_at(matches, "OBJECT")?;
    let launch = text_at(matches, "LAUNCH")?;
    let turns = number_at(matches, "turns")?;
    Some(ObjectWords {
        object,
        launch,
        turns,
    })
}

// What `build` and `exec` ask for.
fn object_command_of<'a>(name: &str, matches: &ArgMatches<'a>) -> Option<Words<'a>>
    ensures { IfSome result (λ w. IsAsked name.now (rows_of (found_of matches.now)) (request_of w)) }
{
    if name == "build" {
        return match build_words(matches) {
            Some(files) => Some(Words::Build(files)),
            None => None,
        };
    }
    if name == "exec" {
        return match object_words(matches) {
            Some(files) => Some(Words::Exec(files)),
            None => None,
        };
    }
    None
}

fn command_of<'a>(name: &str, matches: &ArgMatches<'a>) -> Option<Words<'a>>
    ensures { IfSome result (λ w. IsAsked name.now (rows_of (found_of matches.now)) (request_of w)) }
{
    if name == "run" {
        return run_words(matches);
    }
    if name == "plan" {
        return match file_words(matches) {
            Some(files) => Some(Words::Plan(files)),
            None => None,
        };
    }
    if name == "code" {
        return match file_words(matches) {
            Some(files) => Some(Words::Code(files)),
            None => None,
        };
    }
    if name == "sample" {
        return match needed_number_at(matches, "NUMBER") {
            Some(number) => Some(Words::Sample(number)),
            None => None,
        };
    }
    object_command_of(name, matches)
}

fn words_of<'a>(matches: &ArgMatches<'a>) -> Option<Words<'a>>
    ensures { IfSome result (λ w. Asks (subcommand_rows_of matches.now) (request_of w)) }
{
    match matches.subcommand() {
        Some((name, found)) => command_of(name, found),
        None => None,
    }
}

/// What the words ask for. `Usage` comes exactly where the command, as `clap` defines it, does not
/// take them. Help and version are not offered.
pub fn read_words<'a>(alloc: Global, words: &'a [String]) -> Result<Words<'a>, WordsError>
    ensures usage { result ≡ Err WordsError.Usage → TakesWords (map string_bytes words.now) → ⊥ }
    ensures taken { IfOk result (λ _. TakesWords (map string_bytes words.now)) }
    ensures asked { IfOk result (λ w. AskFor (map string_bytes words.now) (request_of w)) }
{
    match matches_of(alloc, words) {
        Ok(matches) => match words_of(&matches) {
            Some(asked) => Ok(asked),
            None => Err(WordsError::Memory),
        },
        Err(error) => Err(error),
    }
}
