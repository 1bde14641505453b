// The top call.
ghost use Rattle.std.specs.Prelude.{◌≡◌, ◌≢◌, ◌≤◌, ◌<◌, ◌++◌, ◌⊎◌, ◌↔◌, ℕ, List, [], length, map, string_bytes, true, false, None, Some, IfOk, IfErr, OnOk};
ghost use Rattle.cp_app.specs.Headline.{most_bytes, IsAccepted};
ghost use Rattle.cp_app.specs.Commands.{reads, Accepts, Answers};
ghost use Rattle.cp_app.specs.Details.{AnswersInDetail};
ghost use Rattle.cp_app.specs.Answered.{SaysWhole, WheneverGiven, HasAnswered, HasBrokenOff};
ghost use Rattle.cp_app.specs.Endings.{IsRefusedFor, puts_nothing, status_line, HasRefused, WasTooLong, TookAtMost, HasLine};
ghost use Rattle.cp_app.specs.Reported.{text_by};
ghost use Rattle.cp_app.specs.Steps.{IsCauseFor, HasStopped, IsWhole, HasEnded};
ghost use Rattle.cp_app.specs.declared.stopped.Stopped.TheVariants as stopped;
ghost use Rattle.cp_base.specs.Outside.{Rose};
ghost use Rattle.cp_base.specs.declared.place.Refusal.{Refusal as RefusalData};
ghost use Rattle.cp_base.specs.declared.status.Status.TheVariants.{Usage, Refused, ReadFault, WriteFault, Memory, TooLong};
ghost use Rattle.cp_sexpr.specs.Syntax.{Forms};
ghost use Rattle.cp_load.specs.Inputs.{input_entries};
ghost use Rattle.cp_words.specs.declared.command.Command.{Command as CommandData};
ghost use Rattle.cp_words.specs.CommandWords.{command_of};
ghost use Rattle.cp_words.specs.declared.command.CommandName.TheVariants.{Bench};

use crate::analysis::{are_complete, trees_of};
use crate::answer::{Answer, outcomes_status, put_answer};
use crate::bench::benchmark;
use crate::generated::generated;
use crate::input::read_all;
use crate::output::put_line;
use crate::stopped::Stopped;
use cp_base::{Sink, Source, Status};
use cp_load::{Input, load};
use cp_print::{print_pieces, print_shape_pieces};
use cp_sexpr::read;
use cp_skel::Tree;
use cp_words::{Command, CommandName, WordsError, read_command};
use std::alloc::{AllocError, Global};

// Appends what the command prints to `text`, and to `ends` the end of each of its top forms.
fn print_by(
    alloc: Global,
    name: CommandName,
    input: &Input<'_>,
    trees: &[Tree],
    text: &mut Vec<u8>,
    ends: &mut Vec<usize>,
) -> Result<(), AllocError>
    ensures { OnOk result (text.new.items ≡ text.old.items ++ text_by name (input_entries input.now) trees.now) }
{
    match name {
        CommandName::Analyse => print_pieces(alloc, input, trees, text, ends),
        CommandName::Shapes => print_shape_pieces(alloc, input, trees, text, ends),
        CommandName::Gen(_) | CommandName::Bench(_) => Ok(()),
    }
}

// The report on an input, or the reason why there is none.
fn report_of(alloc: Global, command: Command, input: &[u8]) -> Result<Answer, Stopped>
    requires reads { reads command.name ≡ true }
    requires short { length input.now ≤ most_bytes }
    ensures report { IfOk result (λ report. IsWhole command input.now report.text.items report.complete) }
    ensures cause { IfErr result (IsCauseFor command input.now) }
{
    let forms = read(alloc, input)?;
    let loaded = load(alloc, &forms)?;
    let trees = trees_of(alloc, &loaded.entries, command.limits)?;
    let complete = are_complete(&trees);
    let mut text = Vec::new(alloc);
    let mut ends = Vec::new(alloc);
    print_by(alloc, command.name, &loaded, &trees, &mut text, &mut ends)?;
    Ok(Answer {
        text,
        ends,
        complete,
    })
}

// The report on the source's bytes, or the reason why there is none.
fn make_report<S: Source>(
    alloc: Global,
    command: Command,
    source: &mut S,
) -> Result<Answer, Stopped>
    requires reads { reads command.name ≡ true }
    ensures report { (input : List ℕ) → S.left source.old ≡ Some input
        → IfOk result (λ report. IsWhole command input report.text.items report.complete × (S.left source.new ≡ Some [])) }
    ensures stopped { (input : List ℕ) → S.left source.old ≡ Some input
        → IfErr result (HasStopped command input (S.left source.new)) }
    ensures read_fault { IfErr result (λ cause. cause ≡ stopped.ReadFault
        → Rose (S.faults source.old) (S.faults source.new)) }
    ensures needed { S.has_ended source.old ≡ false → S.needless source.new ≡ S.needless source.old }
{
    let input = read_all(alloc, source)?;
    report_of(alloc, command, &input)
}

// What the command puts, or the reason why it puts nothing.
fn make_answer<S: Source>(
    alloc: Global,
    command: Command,
    source: &mut S,
) -> Result<Answer, Stopped>
    requires few { (n : ℕ) → command.name ≡ Bench n → n ≤ 500 }
    ensures answer { (input : List ℕ) → (reads command.name ≡ true → S.left source.old ≡ Some input)
        → IfOk result (λ answer. IsWhole command input answer.text.items answer.complete × (reads command.name ≡ true → S.left source.new ≡ Some [])) }
    ensures stopped { (input : List ℕ) → (reads command.name ≡ true → S.left source.old ≡ Some input)
        → IfErr result (HasStopped command input (S.left source.new)) }
    ensures read_fault { IfErr result (λ cause. cause ≡ stopped.ReadFault
        → Rose (S.faults source.old) (S.faults source.new)) }
    ensures reads_nothing { reads command.name ≡ false → source.new ≡ source.old }
    ensures needed { S.has_ended source.old ≡ false → S.needless source.new ≡ S.needless source.old }
{
    match command.name {
        CommandName::Gen(n) => generated(alloc, n),
        CommandName::Bench(n) => benchmark(alloc, n, command.limits),
        CommandName::Analyse | CommandName::Shapes => make_report(alloc, command, source),
    }
}

// Puts what the command puts, after reading the source if it reads.
fn answer<S: Source, O: Sink>(
    alloc: Global,
    command: Command,
    source: &mut S,
    out: &mut O,
) -> Status
    requires few { (n : ℕ) → command.name ≡ Bench n → n ≤ 500 }
    ensures ended { (input : List ℕ) → (reads command.name ≡ true → S.left source.old ≡ Some input)
        → HasEnded command input (S.left source.new) (O.held out.old) (O.held out.new) result }
    ensures not_usage { result ≢ Usage }
    ensures reads_nothing { reads command.name ≡ false → source.new ≡ source.old }
    ensures read_fault { result ≡ ReadFault → Rose (S.faults source.old) (S.faults source.new) }
    ensures write_fault { result ≡ WriteFault → Rose (O.faults out.old) (O.faults out.new) }
    ensures nothing_put { puts_nothing result ≡ true → out.new ≡ out.old }
    ensures needed_takes { S.has_ended source.old ≡ false → S.needless source.new ≡ S.needless source.old }
    ensures needed_puts { O.needless out.new ≡ O.needless out.old }
{
    match make_answer(alloc, command, source) {
        Ok(answer) => match put_answer(out, &answer) {
            Ok(()) => outcomes_status(answer.complete),
            Err(_) => Status::WriteFault,
        },
        Err(cause) => cause.status(),
    }
}

// Executes the command that these words spell.
fn execute<S: Source, O: Sink>(
    alloc: Global,
    words: &[String],
    source: &mut S,
    out: &mut O,
) -> Status
    ensures executed { (command : CommandData) (input : List ℕ) → command_of (map string_bytes words.now) ≡ Some command
        → (reads command.name ≡ true → S.left source.old ≡ Some input)
        → HasEnded command input (S.left source.new) (O.held out.old) (O.held out.new) result }
    ensures usage { (result ≡ Usage) ↔ (command_of (map string_bytes words.now) ≡ None) }
    ensures usage_reads_nothing { result ≡ Usage → source.new ≡ source.old }
    ensures reads_nothing { (command : CommandData) → command_of (map string_bytes words.now) ≡ Some command
        → reads command.name ≡ false → source.new ≡ source.old }
    ensures read_fault { result ≡ ReadFault → Rose (S.faults source.old) (S.faults source.new) }
    ensures write_fault { result ≡ WriteFault → Rose (O.faults out.old) (O.faults out.new) }
    ensures nothing_put { puts_nothing result ≡ true → out.new ≡ out.old }
    ensures needed_takes { S.has_ended source.old ≡ false → S.needless source.new ≡ S.needless source.old }
    ensures needed_puts { O.needless out.new ≡ O.needless out.old }
{
    match read_command(alloc, words) {
        Ok(command) => answer(alloc, command, source, out),
        Err(WordsError::Usage) => Status::Usage,
        Err(WordsError::Memory) => Status::Memory,
    }
}

/// Runs the command that the words spell, over a source, a sink for its output and a sink for errors.
///
/// `words` starts with the program's name; the command follows. `analyse [--limit N] [--bound N]` reads the source to its end,
/// but at most 1,048,577 bytes, searches for the shapes of each problem within these limits, builds the whole text of the report,
/// and only then puts it on `out`. `shapes`, with the same options, does the same, but omits from the text each label that is not
/// marked as a shape. `gen N` and `bench N` read nothing: `gen` puts a protocol and N problems, and `bench` analyses this text
/// within the default limits and puts one line, with how many labels there are in all trees, how many were expanded, how many are
/// shapes, and how many trees are complete. The status says how the run ended:
///
/// - `Done`: the whole text was put, and every outcome in it is complete;
/// - `Limit`: the whole text was put, and some outcome is a limit;
/// - `Usage`: exactly if the words are no command; nothing was read;
/// - `TooLong`: exactly if the words are a command that reads and the source held more than 1,048,576 bytes, unless the source
///   fails or memory runs out;
/// - `Refused`: exactly if the words are a command that reads and the input, of at most 1,048,576 bytes, is not well formed, with
///   the same exceptions; it gives the place and the code of the first fault;
/// - `ReadFault`, `WriteFault`: the source, or the sink for the output, failed;
/// - `Memory`: memory ran out.
///
/// A report covers the whole input, which is well formed and was read to its end: the forms in order, each problem followed by
/// its tree. Each label declares its problem's variables, and every variable that occurs in it. The tree is true of its problem:
///
/// - each label denotes a skeleton over the protocol, carries a homomorphism from the problem and keeps what the problem itself
///   states;
/// - each shape is realised, and no shape embeds in another one of its problem;
/// - if the tree is complete, each standing of the problem in a bundle factors through a shape; at a limit, through a shape or a
///   label at the limit;
/// - the outcome is a limit only if that limit was reached.
///
/// Moreover, each tree is one that the rules of the search make, label by label.
///
/// Reading the forms of the report back gives the same trees, each label with its skeleton and its map from the problem, up to
/// the names of variables, the places of forms, and the pairs that generate an order. The same holds for the text that `analyse`
/// puts, if that text can be read; it can if its numbers have at most nine digits and its lists are nested at most 200 deep. The
/// trees that these forms denote are true of their problems too.
///
/// The trees that `bench` counts are true of their problems too, and made by the rules of the search.
///
/// At `WriteFault` a proper prefix of such a text was put. At every other status except `Done` and `Limit`, nothing was put on
/// `out`. Each status except `Done` and `Limit` has a line on the sink for errors, or a prefix of it if that sink fails. What is
/// said of the input and the output holds if the source tells what it has left and the sinks tell what they hold.
///
/// No sink is given an empty piece. The source is never asked for nothing, and never again once it has said that it is at its end;
/// of one that has said so before the run, this is not promised.
pub fn run<S: Source, O: Sink, E: Sink>(
    alloc: Global,
    words: &[String],
    source: &mut S,
    out: &mut O,
    errs: &mut E,
) -> Status
    // Words that are no command, and no others, end in `Usage`; then nothing is read.
    ensures usage { (result ≡ Usage) ↔ (command_of (map string_bytes words.now) ≡ None) }
    ensures usage_reads_nothing { result ≡ Usage → source.new ≡ source.old }

    // What was put is the command's answer to the whole input; at a write fault, a proper prefix of an answer.
    ensures answered { WheneverGiven (command_of (map string_bytes words.now)) (S.left source.old) (O.held out.old) (λ command input before. SaysWhole result → HasAnswered (Answers command) command input before (S.left source.new) (O.held out.new) result) }
    ensures broken_off { WheneverGiven (command_of (map string_bytes words.now)) (S.left source.old) (O.held out.old) (λ command input before. result ≡ WriteFault → HasBrokenOff (Answers command) command input before (S.left source.new) (O.held out.new)) }

    // The same, with what is promised of answers beyond the headline.
    ensures answered_in_detail { WheneverGiven (command_of (map string_bytes words.now)) (S.left source.old) (O.held out.old) (λ command input before. SaysWhole result → HasAnswered (AnswersInDetail command) command input before (S.left source.new) (O.held out.new) result) }
    ensures broken_off_in_detail { WheneverGiven (command_of (map string_bytes words.now)) (S.left source.old) (O.held out.old) (λ command input before. result ≡ WriteFault → HasBrokenOff (AnswersInDetail command) command input before (S.left source.new) (O.held out.new)) }

    // A command that reads answers only input that it accepts, read to its end; one that does not takes nothing.
    ensures accepted { (command : CommandData) (input : List ℕ)
        → command_of (map string_bytes words.now) ≡ Some command → reads command.name ≡ true
        → S.left source.old ≡ Some input → (SaysWhole result ⊎ (result ≡ WriteFault))
        → (S.left source.new ≡ Some []) × ((fs : Forms) × IsAccepted (Accepts command) input fs) }
    ensures reads_nothing { (command : CommandData) → command_of (map string_bytes words.now) ≡ Some command
        → reads command.name ≡ false → source.new ≡ source.old }
    ensures reads_nothing_ends { (command : CommandData) → command_of (map string_bytes words.now) ≡ Some command
        → reads command.name ≡ false → SaysWhole result ⊎ ((result ≡ WriteFault) ⊎ (result ≡ Memory)) }

    // Input that the command refuses, and no other, is refused, with the place and code that the command gives.
    ensures refused { (command : CommandData) (r : RefusalData) (input : List ℕ)
        → command_of (map string_bytes words.now) ≡ Some command → result ≡ Refused r
        → S.left source.old ≡ Some input → HasRefused command input (S.left source.new) r }
    ensures only_refused { (command : CommandData) (r : RefusalData) (input : List ℕ)
        → command_of (map string_bytes words.now) ≡ Some command → reads command.name ≡ true
        → S.left source.old ≡ Some input → length input ≤ most_bytes → IsRefusedFor command input r
        → (result ≡ Refused r) ⊎ ((result ≡ ReadFault) ⊎ (result ≡ Memory)) }

    // Input longer than `most_bytes`, and no other, is too long.
    ensures too_long { (input : List ℕ) → S.left source.old ≡ Some input → result ≡ TooLong
        → WasTooLong input (S.left source.new) }
    ensures only_too_long { (command : CommandData) (input : List ℕ)
        → command_of (map string_bytes words.now) ≡ Some command → reads command.name ≡ true
        → S.left source.old ≡ Some input → most_bytes < length input
        → (result ≡ TooLong) ⊎ ((result ≡ ReadFault) ⊎ (result ≡ Memory)) }
    ensures took_at_most { (input : List ℕ) → S.left source.old ≡ Some input
        → TookAtMost input (S.left source.new) }

    // A fault is reported only if the source or the sink counted one, or its count is at its greatest.
    ensures read_fault { result ≡ ReadFault → Rose (S.faults source.old) (S.faults source.new) }
    ensures write_fault { result ≡ WriteFault → Rose (O.faults out.old) (O.faults out.new) }
    ensures nothing_put { puts_nothing result ≡ true → out.new ≡ out.old }

    // The line of the status on the sink for errors.
    ensures error_line { (before : List ℕ) → E.held errs.old ≡ Some before
        → HasLine (status_line result) before (E.held errs.new)
        (E.faults errs.old) (E.faults errs.new) }
    ensures no_line { SaysWhole result → errs.new ≡ errs.old }

    // No call is made without need: no piece that is put is empty, and a source that has said that it is at its end is not asked
    // again, nor any source for nothing.
    ensures needed_takes { S.has_ended source.old ≡ false → S.needless source.new ≡ S.needless source.old }
    ensures needed_puts { O.needless out.new ≡ O.needless out.old }
    ensures needed_lines { E.needless errs.new ≡ E.needless errs.old }

    // Accepted input is answered, unless a fault is counted or the status is `Memory`.
    ensures completes { (command : CommandData) → command_of (map string_bytes words.now) ≡ Some command
        → (reads command.name ≡ true → (input : List ℕ) × (fs : Forms) × (S.left source.old ≡ Some input) × IsAccepted (Accepts command) input fs)
        → (Rose (S.faults source.old) (S.faults source.new) → ⊥)
        → (Rose (O.faults out.old) (O.faults out.new) → ⊥) → SaysWhole result ⊎ (result ≡ Memory) }
{
    let status = execute(alloc, words, source, out);
    put_line(errs, status);
    status
}
