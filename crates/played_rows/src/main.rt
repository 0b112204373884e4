//! Plays calls of the program: rows of scripts in `data/`, and calls that are made up as they are
//! played. What came is printed, and `stdout` has what must come.
//!
//! The words of this program are the names of the scripts, in the order in which they are played.
#![tactic(auto)]

mod ball;
mod call;
mod changes;
mod meetings;
mod script;
mod slow;
mod stage;
mod told;
mod twelve;
mod unread;

use crate::script::play;
use crate::stage::Stage;
use std::alloc::{AllocError, Global};
use std::io::Write;
use std::process::ExitCode;
use std::{env, io};
use walker_run::words_read;
use way_io::HostFiles;

fn main(rt: HostRuntime) -> ExitCode {
    let Ok(scripts) = words_read(rt.alloc(), words_of(rt.alloc(), &rt)) else {
        return ExitCode::FAILURE;
    };
    let mut disk = HostFiles::new(&rt);
    let Ok(said) = play_all(rt.alloc(), &mut disk, &scripts) else {
        return ExitCode::FAILURE;
    };
    match io::writer(&rt).write_all(&said) {
        Ok(()) => ExitCode::SUCCESS,
        Err(_) => ExitCode::FAILURE,
    }
}

/// The words after the program's name.
fn words_of(alloc: Global, rt: &HostRuntime) -> io::Result<Vec<String>> {
    Ok(env::args(rt)?.skip(1).collect(alloc)?)
}

fn play_all<R: std::rt::Files>(
    alloc: Global,
    disk: &mut HostFiles<'_, R>,
    scripts: &[String],
) -> Result<Vec<u8>, AllocError> {
    let mut stage = Stage::new(alloc);
    let mut said = Vec::new(alloc);
    for name in scripts {
        play(alloc, disk, name, &mut stage, &mut said)?;
    }
    Ok(said)
}
