// The command that words are, as the parser of command lines reads them.
ghost use Rattle.std.specs.Prelude.{◌≡◌, IfErr, IfOk, Some, map, string_bytes, true};
ghost use Rattle.clap.specs.Words.{App, HasMatchesOf, app_of, found_of, rows_of, subcommand_rows_of, takes, with_subcommand};
ghost use Rattle.cp_words.specs.declared.command.Command.{Command as CommandData};
ghost use Rattle.cp_words.specs.CommandWords.{command_of};
ghost use Rattle.cp_words.specs.Description.{described, described_as, numbered_as};
ghost use Rattle.cp_words.specs.Parsed.{command_found, limits_in, option_number};
ghost use Rattle.cp_words.specs.declared.error.WordsError.TheVariants.{Memory};

use crate::accepted::{command_with, number};
use crate::{Command, WordsError};
use clap::{Arg, ArgMatches};
use cp_skel::Limits;
use std::alloc::{AllocError, Global};

// A command of this name and its two options, as the parser is told of it.
fn description_of<'a>(alloc: Global, name: &'a str) -> Result<clap::Command<'a>, AllocError>
    ensures { IfOk result (λ c. app_of c ≡ described_as name.now) }
{
    let limit = Arg::new(alloc, "limit").long("limit").default_value("2000");
    let bound = Arg::new(alloc, "bound").long("bound").default_value("8");
    clap::Command::new(alloc, name).arg(limit)?.arg(bound)
}

// A command of this name and its number, as the parser is told of it.
fn numbered<'a>(alloc: Global, name: &'a str) -> Result<clap::Command<'a>, AllocError>
    ensures { IfOk result (λ c. app_of c ≡ numbered_as name.now) }
{
    clap::Command::new(alloc, name).arg(Arg::new(alloc, "N").required(true))
}

// The program with one more command.
fn with_command<'a>(
    program: Result<clap::Command<'a>, AllocError>,
    command: Result<clap::Command<'a>, AllocError>,
) -> Result<clap::Command<'a>, AllocError>
    ensures { (a b : App) → IfOk program.entry (λ c. app_of c ≡ a) → IfOk command.entry (λ c. app_of c ≡ b) → b.top.is_plain ≡ true
        → IfOk result (λ c. app_of c ≡ with_subcommand a b.top) }
{
    program?.subcommand(command?)
}

// The commands, as the parser is told of them.
fn description<'a>(alloc: Global) -> Result<clap::Command<'a>, AllocError>
    ensures { IfOk result (λ c. app_of c ≡ described) }
{
    let none = Ok(clap::Command::new(alloc, "cpsa"));
    let analyse = with_command(none, description_of(alloc, "analyse"));
    let shapes = with_command(analyse, description_of(alloc, "shapes"));
    let generated = with_command(shapes, numbered(alloc, "gen"));
    with_command(generated, numbered(alloc, "bench"))
}

// What the parser finds in the words.
fn matches_in<'a>(alloc: Global, words: &'a [String]) -> Result<ArgMatches<'a>, WordsError>
    ensures matches { IfOk result (HasMatchesOf described (map string_bytes words.now)) }
    ensures memory { IfErr result (λ e. takes described (map string_bytes words.now) ≡ true → e ≡ Memory) }
{
    Ok(description(alloc)?.try_get_matches_from(words)?)
}

// The number that an option has, or that stands alone.
fn number_in(options: &ArgMatches<'_>, name: &str) -> Option<u32>
    ensures { result ≡ option_number name.now (rows_of (found_of options.now)) }
{
    number(options.get_str(name)?)
}

// The limits that the options set.
fn limits_in(options: &ArgMatches<'_>) -> Option<Limits>
    ensures { result ≡ limits_in (rows_of (found_of options.now)) }
{
    let steps = number_in(options, "limit")?;
    let strands = number_in(options, "bound")?;
    Some(Limits { steps, strands })
}

// The command that was found.
fn command_found(matches: &ArgMatches<'_>) -> Option<Command>
    ensures { result ≡ command_found (subcommand_rows_of matches.now) }
{
    let (name, found) = matches.subcommand()?;
    command_with(name, limits_in(found), number_in(found, "N"))
}

/// The command that the words are.
pub(crate) fn parse(alloc: Global, words: &[String]) -> Result<Command, WordsError>
    ensures command { (d : CommandData) → command_of (map string_bytes words.now) ≡ Some d → IfOk result (λ c. c ≡ d) }
    ensures memory { (d : CommandData) → command_of (map string_bytes words.now) ≡ Some d → IfErr result (λ e. e ≡ Memory) }
{
    command_found(&matches_in(alloc, words)?).ok_or(WordsError::Usage)
}
