//! The program: makes the real ends, makes the one call, and ends with its status.
#![tactic(auto)]

use std::alloc::{AllocError, Global};
use std::env;
use std::env::Env;
use std::io::ErrorKind;
use std::process::ExitCode;
use std::sync::Arc;
use xindex::{Progress, StandardInput, StandardOutput, Status, xindex};

fn main(rt: HostRuntime) -> ExitCode {
    let mut source = StandardInput::new(rt.stdin());
    let Ok(mut sink) = StandardOutput::new(rt.alloc(), rt.stdout()) else {
        return ExitCode::from(Status::Memory.number());
    };
    let Ok(words) = words_of(&rt) else {
        return ExitCode::from(Status::Memory.number());
    };
    let Ok(texts) = texts_of(rt.alloc(), &words) else {
        return ExitCode::from(Status::Memory.number());
    };
    let Ok(gate) = Arc::new(rt.alloc(), Progress::new(rt.stderr())) else {
        return ExitCode::from(Status::Memory.number());
    };
    let outcome = xindex(&rt, rt.alloc(), &texts, &mut source, &mut sink, gate);
    ExitCode::from(outcome.status.number())
}

// The words of the command line after the program's name, or want of memory. Words that are no text ask for nothing,
// as no words do.
fn words_of<R: Env + AllocGlobal>(rt: &R) -> Result<Vec<String>, ErrorKind> {
    match env::args(rt) {
        Ok(words) => words
            .skip(1)
            .collect(rt.alloc())
            .map_err(|_| ErrorKind::OutOfMemory),
        Err(error) => match error.kind() {
            ErrorKind::OutOfMemory => Err(ErrorKind::OutOfMemory),
            _ => Ok(Vec::new(rt.alloc())),
        },
    }
}

fn texts_of<'a>(alloc: Global, words: &'a [String]) -> Result<Vec<&'a str>, AllocError> {
    words.iter().map(|word| word.as_str()).collect(alloc)
}
