//! The command line of each command.

ghost use Rattle.std.specs.Prelude.{◌≡◌, ◌<◌, ◌≤◌, IfOk, length, true};
ghost use Rattle.clap.specs.Built.{IsParsedFrom};
ghost use Rattle.clap.specs.Faults.{is_simple_and_free};
ghost use Rattle.clap.specs.Matches.{found_of};
ghost use Rattle.clap.specs.Simple.{app_of, new_app};
ghost use Rattle.clap.specs.Walk.{rows_of};
ghost use Rattle.run_words.specs.Commands.{name_of, Sim_name, Check_name, Generate_name, Host_name};
ghost use Rattle.run_words.specs.Asked.{AnswersWords, AnswersName, AnswersLine, AnswersBy, has_text, most_words, side_of};
ghost use Rattle.run_words.specs.Valid.{AreWordsFor, IsAnswered};
ghost use Rattle.run_words.specs.Parsing.{Parses, texts_of};
ghost use Rattle.run_words.specs.declared.asked.Asked.{Asked as AskedType};

use crate::asked::{Asked, WordsFault};
use clap::error::ErrorKind;
use clap::{Arg, ArgAction, ArgMatches, Command};
use std::alloc::Global;
use zw_words::Side;

/// The most lines of `host`.
pub const MAX_LINES: usize = 256;

/// The words for the sides of the line.
static SIDES: [&str; 2] = ["host", "chip"];

/// The words for how many hundred commands are generated.
static HUNDREDS: [&str; 50] = [
    "1", "2", "3", "4", "5", "6", "7", "8", "9", "10", "11", "12", "13", "14", "15", "16", "17",
    "18", "19", "20", "21", "22", "23", "24", "25", "26", "27", "28", "29", "30", "31", "32", "33",
    "34", "35", "36", "37", "38", "39", "40", "41", "42", "43", "44", "45", "46", "47", "48", "49",
    "50",
];

/// What the words after the program's name ask for.
pub fn read_words(alloc: Global, words: &[String]) -> Result<Asked, WordsFault>
    ensures answers { AnswersWords (texts_of words.now) result }
    ensures valid { (asked : AskedType) → AreWordsFor asked (texts_of words.now) → IsAnswered asked result }
{
    let [word, ..] = words else {
        return Err(WordsFault::Usage);
    };
    read_command(alloc, word.as_str(), words)
}

/// What the words of the command that is named ask for.
fn read_command(alloc: Global, word: &str, words: &[String]) -> Result<Asked, WordsFault>
    ensures { AnswersName (name_of word.now) (texts_of words.now) result }
{
    match word {
        "sim" => read_sim(alloc, words),
        "check" => read_check(alloc, words),
        "generate" => read_generate(alloc, words),
        "replay" => read_alone(alloc, "replay", words, Asked::Replay),
        "events" => read_alone(alloc, "events", words, Asked::Events),
        "include" => read_alone(alloc, "include", words, Asked::Include),
        "host" => read_host(alloc, words),
        "audit" => read_alone(alloc, "audit", words, Asked::Audit),
        _ => Err(WordsFault::Usage),
    }
}

/// A command without arguments.
fn read_alone<'a>(
    alloc: Global,
    name: &'a str,
    words: &'a [String],
    asked: Asked,
) -> Result<Asked, WordsFault>
    ensures { AnswersBy (new_app name.entry.now) (λ rows given. given ≡ asked) (texts_of words.entry.now) result }
{
    let _matches = parse(Command::new(alloc, name), words)?;
    Ok(asked)
}

/// `sim [--quiet]`
fn read_sim(alloc: Global, words: &[String]) -> Result<Asked, WordsFault>
    ensures { AnswersLine Sim_name (texts_of words.now) result }
{
    let quiet = Arg::new(alloc, "quiet")
        .long("quiet")
        .action(ArgAction::SetTrue);
    let matches = parse(Command::new(alloc, "sim").arg(quiet)?, words)?;
    let quiet = has_text(&matches, "quiet", "true");
    Ok(Asked::Sim { quiet })
}

/// `check [--from host|chip]`
fn read_check(alloc: Global, words: &[String]) -> Result<Asked, WordsFault>
    ensures { AnswersLine Check_name (texts_of words.now) result }
{
    let from = Arg::new(alloc, "from")
        .long("from")
        .value_parser(SIDES.as_slice());
    let matches = parse(Command::new(alloc, "check").arg(from)?, words)?;
    let from = side_of(has_text(&matches, "from", "host"));
    Ok(Asked::Check { from })
}

/// `generate N`
fn read_generate(alloc: Global, words: &[String]) -> Result<Asked, WordsFault>
    ensures { AnswersLine Generate_name (texts_of words.now) result }
{
    let number = Arg::new(alloc, "number")
        .action(ArgAction::Set)
        .required(true)
        .value_parser(HUNDREDS.as_slice());
    let matches = parse(Command::new(alloc, "generate").arg(number)?, words)?;
    let hundreds = matches.get_one::<u8>("number").unwrap_or(0);
    Ok(Asked::Generate { hundreds })
}

/// `host LINE..`
fn read_host(alloc: Global, words: &[String]) -> Result<Asked, WordsFault>
    ensures many { most_words < length words.now → result ≡ Err WordsFault.Usage }
    ensures few { length words.now ≤ most_words → AnswersLine Host_name (texts_of words.now) result }
{
    if words.len() > MAX_LINES + 1 {
        return Err(WordsFault::Usage);
    }
    let lines = Arg::new(alloc, "line").required(true).num_args(1..);
    let _matches = parse(Command::new(alloc, "host").arg(lines)?, words)?;
    Ok(Asked::Host)
}

/// The side that is named, where the host's name tells it from the chip's.
fn side_of(is_host: bool) -> Side
    ensures { result ≡ side_of is_host }
{
    if is_host { Side::Host } else { Side::Chip }
}

/// Whether the first text that the matches have for an argument is that one.
fn has_text(matches: &ArgMatches, argument: &str, text: &str) -> bool
    ensures { result ≡ has_text argument.now text.now (rows_of (found_of matches.now)) }
{
    match matches.get_str(argument) {
        Some(found) => found == text,
        None => false,
    }
}

/// The matches of a command's words, the first of which is its name.
fn parse<'a>(command: Command<'a>, words: &'a [String]) -> Result<ArgMatches<'a>, WordsFault>
    requires { is_simple_and_free (app_of command) ≡ true }
    ensures parses { Parses (app_of command.entry) (texts_of words.entry.now) result }
    ensures parsed { IfOk result (λ matches. IsParsedFrom command.entry matches) }
{
    match command.try_get_matches_from(words) {
        Ok(matches) => Ok(matches),
        Err(error) => match error.kind() {
            ErrorKind::OutOfMemory => Err(WordsFault::NoMemory),
            _ => Err(WordsFault::Usage),
        },
    }
}
