//! The program: it hands its words, the files, the streams and a learner to [`walker_run::run`], and
//! exits with the status that this answers.
#![tactic(auto)]

use state_learner::Learner;
use std::alloc::Global;
use std::process::ExitCode;
use std::{env, io};
use walker_run::{run, words_read};
use way_io::{HostFiles, StdSink, StdSource};

fn main(rt: HostRuntime) -> ExitCode {
    let words = match words_read(rt.alloc(), words_of(rt.alloc(), &rt)) {
        Ok(words) => words,
        Err(status) => return ExitCode::from(status.code()),
    };
    let mut files = HostFiles::new(&rt);
    let mut input = StdSource::new(rt.reader());
    let mut out = StdSink::new(io::writer(&rt));
    let mut teacher = Learner::new(rt.alloc());
    let status = run(
        rt.alloc(),
        words.as_slice(),
        &mut files,
        &mut input,
        &mut out,
        &mut teacher,
    );
    ExitCode::from(status.code())
}

/// The words after the program's name.
fn words_of(alloc: Global, rt: &HostRuntime) -> io::Result<Vec<String>> {
    Ok(env::args(rt)?.skip(1).collect(alloc)?)
}
