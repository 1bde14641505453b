// The words that are a command.
ghost use Rattle.std.specs.Prelude.{◌≡◌, is_some, map, option_map, string_bytes};
ghost use Rattle.cp_words.specs.CommandWords.{parsed_number, setting_of, name_and_value, first_setting, limits_of, limits_set, limits_behind, limits_by, command_named, command_over, numbered_command, command_with, number_alone, command_of};

use crate::{Command, CommandName};
use cp_skel::Limits;

/// The step limit if the words give none, and the greatest that they may give.
const DEFAULT_LIMIT: u32 = 2_000;

const GREATEST_LIMIT: u32 = 100_000;

/// The bound on the number of strands if the words give none.
const DEFAULT_BOUND: u32 = 8;

/// The greatest number of problems that the words may give.
const GREATEST_NUMBER: u32 = 500;

/// An option, with its value.
#[derive(Clone, Copy)]
enum Setting {
    Limit(u32),
    Bound(u32),
}

// The number that a text is read as.
pub(crate) fn number(text: &str) -> Option<u32>
    ensures { result ≡ parsed_number text.now }
{
    text.parse().ok()
}

/// The option of this name, with the number that the text is read as.
fn setting_of(name: &str, value: &str) -> Option<Setting>
    ensures { result ≡ setting_of name.now value.now }
{
    let number = number(value)?;
    match name {
        "--limit" => Some(Setting::Limit(number)),
        "--bound" => Some(Setting::Bound(number)),
        _ => None,
    }
}

/// The name and the value of an option in one word.
fn name_and_value(word: &str) -> Option<(&str, &str)>
    ensures { option_map (λ p. (p.0.now, p.1.now)) result ≡ name_and_value word.now }
{
    word.split_once('=')
}

/// The option that the words begin with, in one word or in two, and the words after it.
fn first_setting(words: &[String]) -> Option<(Setting, &[String])>
    ensures { option_map (λ x. (x.0, map string_bytes x.1.now)) result ≡ first_setting (map string_bytes words.now) }
{
    let (word, rest) = words.split_first()?;
    if let Some((name, value)) = name_and_value(word.as_str()) {
        return Some((setting_of(name, value)?, rest));
    }
    let (value, rest) = rest.split_first()?;
    Some((setting_of(word.as_str(), value.as_str())?, rest))
}

/// The limits with these numbers, if a command may have them.
fn limits_of(steps: u32, strands: u32) -> Option<Limits>
    ensures { result ≡ limits_of steps strands }
{
    (steps <= GREATEST_LIMIT && (1..=32).contains(&strands)).then_some(Limits { steps, strands })
}

/// The limits that one option or two set.
fn limits_set(first: Setting, second: Option<Setting>) -> Option<Limits>
    ensures { result ≡ limits_set first second }
{
    match (first, second) {
        (Setting::Limit(steps), None) => limits_of(steps, DEFAULT_BOUND),
        (Setting::Bound(strands), None) => limits_of(DEFAULT_LIMIT, strands),
        (Setting::Limit(steps), Some(Setting::Bound(strands)))
        | (Setting::Bound(strands), Some(Setting::Limit(steps))) => limits_of(steps, strands),
        _ => None,
    }
}

/// The limits that the options set: this option and those in the words after it.
fn limits_behind(first: Setting, rest: &[String]) -> Option<Limits>
    ensures { result ≡ limits_behind (first, map string_bytes rest.now) }
{
    if rest.is_empty() {
        return limits_set(first, None);
    }
    let (second, rest) = first_setting(rest)?;
    if rest.is_empty() {
        limits_set(first, Some(second))
    } else {
        None
    }
}

/// The limits that the options set.
fn limits_by(options: &[String]) -> Option<Limits>
    ensures { result ≡ limits_by (map string_bytes options.now) }
{
    if options.is_empty() {
        return limits_of(DEFAULT_LIMIT, DEFAULT_BOUND);
    }
    let (first, rest) = first_setting(options)?;
    limits_behind(first, rest)
}

/// The command that a word stands for, of those with options.
fn command_named(word: &str) -> Option<CommandName>
    ensures { result ≡ command_named word.now }
{
    match word {
        "analyse" => Some(CommandName::Analyse),
        "shapes" => Some(CommandName::Shapes),
        _ => None,
    }
}

/// The command that a word stands for, of those with a number of problems.
fn command_over(word: &str, number: u32) -> Option<CommandName>
    ensures { result ≡ command_over word.now number }
{
    match word {
        "gen" => Some(CommandName::Gen(number)),
        "bench" => Some(CommandName::Bench(number)),
        _ => None,
    }
}

/// The command that a word and a number of problems stand for.
fn numbered_command(word: &str, number: u32) -> Option<Command>
    ensures { result ≡ numbered_command word.now number }
{
    if !(1..=GREATEST_NUMBER).contains(&number) {
        return None;
    }
    let limits = Limits {
        steps: DEFAULT_LIMIT,
        strands: DEFAULT_BOUND,
    };
    command_over(word, number).map(|name| Command { name, limits })
}

/// The command that a word stands for, with these limits if it has options, or with this number.
pub(crate) fn command_with(
    word: &str,
    limits: Option<Limits>,
    number: Option<u32>,
) -> Option<Command>
    ensures { result ≡ command_with (command_named word.now) word.now limits number }
{
    match command_named(word) {
        Some(name) => limits.map(|limits| Command { name, limits }),
        None => numbered_command(word, number?),
    }
}

/// The number that stands alone.
fn number_alone(words: &[String]) -> Option<u32>
    ensures { result ≡ number_alone (map string_bytes words.now) }
{
    match words {
        [word] => number(word.as_str()),
        _ => None,
    }
}

/// The command that the words are: a name for the program, the name of the command, and its options, each at most once,
/// `--limit` with a number of at most 100,000 and `--bound` with a number from 1 to 32, or its number, from 1 to 500. `None` for
/// any other words.
fn command_of(words: &[String]) -> Option<Command>
    ensures { result ≡ command_of (map string_bytes words.now) }
{
    let [_, name, rest @ ..] = words else {
        return None;
    };
    command_with(name.as_str(), limits_by(rest), number_alone(rest))
}

/// Whether the words are a command.
pub(crate) fn is_command(words: &[String]) -> bool
    ensures { result ≡ is_some (command_of (map string_bytes words.now)) }
{
    command_of(words).is_some()
}
