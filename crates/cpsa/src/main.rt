// The program: passes the words of the command line and the standard streams to `cp_app::run`.
#![tactic(auto)]

use cp_app::run;
use cp_base::{Status, StdSink, StdSource};
use std::alloc::{AllocError, Global};
use std::env;
use std::io::ErrorKind;
use std::process::ExitCode;
use std::rt::Env;

// The words of the command line; none if they cannot be had, for example because one of them is not UTF-8.
fn words(rt: &(impl Env + Alloc<A = Global>)) -> Result<Vec<String>, AllocError> {
    match env::args(rt) {
        Ok(words) => words.collect(rt.alloc()),
        Err(error) if error.kind() == ErrorKind::OutOfMemory => Err(AllocError),
        Err(_) => Ok(Vec::new(rt.alloc())),
    }
}

fn main(rt: HostRuntime) -> ExitCode {
    let Ok(words) = words(&rt) else {
        return ExitCode::from(Status::Memory.number());
    };
    let mut source = StdSource::new(rt.stdin());
    let mut out = StdSink::new(rt.stdout());
    let mut errs = StdSink::new(rt.stderr());
    let status = run(rt.alloc(), &words, &mut source, &mut out, &mut errs);
    ExitCode::from(status.number())
}
