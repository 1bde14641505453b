// A program that tests a report from outside: whether it is what the search answers to the problems that stand in it.
// It reads the report back, searches the problems of its input again, and compares the trees up to the names of each
// label's variables. It tests what the contracts of the libraries promise, and has none of its own: it is
// proved safe.
//
// The words are `analyse [--limit N] [--bound N]`, those with which `cpsa` made the report, and the report is the
// standard input. The answer is a line on standard output or on standard error, and a status:
//
// - 0: `as searched: N labels`, the number of labels in all trees;
// - 1: `problem P label L differs`, the first label that differs, both numbered from 0, or `problem P differs`, if a
//   tree has another outcome or another number of labels, or is one too many or missing;
// - 2: the words are no such command;
// - 3: `no report LINE:COLUMN`, the first place at which the input fits no report or cannot be read;
// - 4, 5, 6, 7: a stream failed, memory ran out, or the input is too long, as with `cpsa`.
//
// With the word `print` nothing is searched: what was read of the report is printed again on standard output, with
// status 0. For a report that `cpsa analyse` printed it is the same text, except for names that a label gives anew.
#![tactic(auto)]

mod comparison;
mod operations;
mod report_check;
mod report_text;
mod reprint;
mod stopped;
mod strands;
mod terms;
mod verdict;

use cp_base::Status;
use report_check::verdict_on;
use reprint::printed_again;
use std::alloc::{AllocError, Global};
use std::io::Write;
use std::process::ExitCode;
use std::rt::Env;
use std::{env, io};
use stopped::Stopped;
use verdict::Verdict;

// The words of the command line. Words that are not UTF-8 are no command.
fn words(rt: &(impl Env + Alloc<A = Global>)) -> Result<Vec<String>, Stopped> {
    match env::args(rt) {
        Ok(words) => words
            .collect(rt.alloc())
            .map_err(|error: AllocError| Stopped::from(error)),
        Err(error) => Err(Stopped::memory_or(error, Stopped::Usage)),
    }
}

// What the program answers.
enum Output {
    Verdict(Verdict),
    Report(Vec<u8>),
}

// The answer to the words and the standard input.
fn answer(rt: &HostRuntime) -> Result<Output, Stopped> {
    let words = words(rt)?;
    match words.as_slice() {
        [_, word] if word.as_str() == "print" => {
            printed_again(rt.alloc(), rt.stdin()).map(|report| Output::Report(report))
        }
        _ => verdict_on(rt.alloc(), &words, rt.stdin()).map(|verdict| Output::Verdict(verdict)),
    }
}

// The number of this status if the answer was put, otherwise that of a write fault.
fn put_with(put: io::Result<()>, number: u8) -> u8 {
    match put {
        Ok(()) => number,
        Err(_) => Status::WriteFault.number(),
    }
}

// Prints the answer, and gives the status of the program.
fn end(rt: &HostRuntime, answer: Result<Output, Stopped>) -> u8 {
    match answer {
        Ok(Output::Verdict(verdict)) => put_with(println!(rt; "{verdict}"), verdict.number()),
        Ok(Output::Report(report)) => put_with(rt.stdout().write_all(&report), 0),
        Err(stopped) => {
            // The status stays the same if its line cannot be put.
            let _ = eprintln!(rt; "{stopped}");
            stopped.number()
        }
    }
}

fn main(rt: HostRuntime) -> ExitCode {
    ExitCode::from(end(&rt, answer(&rt)))
}
