// The command that the words of the command line are.
ghost use Rattle.std.specs.Prelude.{◌≡◌, ◌↔◌, IfErr, IfOk, None, Some, map, string_bytes};
ghost use Rattle.cp_words.specs.CommandWords.{command_of};
ghost use Rattle.cp_words.specs.declared.error.WordsError.TheVariants.{Usage};

use crate::WordsError;
use crate::accepted::is_command;
use crate::parser::parse;
use cp_skel::Limits;
use std::alloc::Global;

/// Which command it is.
#[derive(Clone, Copy, Debug, PartialEq, Eq)]
pub enum CommandName {
    /// `analyse`, which prints the report.
    Analyse,
    /// `shapes`, which prints the report without the labels that are no shapes.
    Shapes,
    /// `gen`, which prints a protocol and so many problems over it.
    Gen(u32),
    /// `bench`, which analyses so many problems over a protocol and prints what there was to do.
    Bench(u32),
}

/// A command, with the limits that its words ask for.
#[derive(Clone, Copy, Debug, PartialEq, Eq)]
pub struct Command {
    pub name: CommandName,
    pub limits: Limits,
}

/// The command that words are.
///
/// The words are a name for the program, `analyse` or `shapes`, and its options, each at most once and in any order:
/// `--limit` with a number of at most 100,000 (default 2,000), and `--bound` with a number from 1 to 32 (default 8). Or they
/// are a name for the program, `gen` or `bench`, and a number from 1 to 500; then the limits are the defaults. The error is
/// `Usage` exactly if the words are no such command. `Memory` means that they are one, but a growth in memory was refused.
pub fn read_command(alloc: Global, words: &[String]) -> Result<Command, WordsError>
    ensures command { IfOk result (λ command. command_of (map string_bytes words.now) ≡ Some command) }
    ensures usage { IfErr result (λ cause. (cause ≡ Usage) ↔ (command_of (map string_bytes words.now) ≡ None)) }
{
    if !is_command(words) {
        return Err(WordsError::Usage);
    }
    parse(alloc, words)
}
