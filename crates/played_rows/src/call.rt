// One call of the program. No function has a clause, so that what calls it is proved at once.
use state_learner::Learner;
use std::alloc::{AllocError, Global};
use walker_run::run;
use way_io::{MemFiles, MemSink, MemSource, Source};

/// The exit status of the words, separated by spaces.
pub(crate) fn call<I: Source>(
    alloc: Global,
    words: &str,
    files: &mut MemFiles,
    input: &mut I,
    out: &mut MemSink,
) -> Result<u8, AllocError> {
    let mut list = Vec::new(alloc);
    for word in words.split(' ') {
        list.push(String::from_str(alloc, word)?)?;
    }
    let mut teacher = Learner::new(alloc);
    Ok(run(alloc, list.as_slice(), files, input, out, &mut teacher).code())
}

/// A source that gives at most `step` bytes a read, and one where that is 0.
pub(crate) fn source(
    alloc: Global,
    bytes: &[u8],
    step: u32,
    failing: &[u32],
) -> Result<MemSource, AllocError> {
    MemSource::new(alloc, bytes, step.max(1), failing)
}

/// A sink that takes at most `step` bytes a write, and one where that is 0.
pub(crate) fn sink(
    alloc: Global,
    room: u32,
    step: u32,
    failing: &[u32],
) -> Result<MemSink, AllocError> {
    MemSink::new(alloc, room, step.max(1), failing)
}
