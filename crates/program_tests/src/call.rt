// One call of the program over files in memory. The function that calls has no clause, so that each
// test that stands on it is proved at once.
use sample_tilings::{PENTAGONS_RULES, PENTAGONS_TESS};
use state_learner::Learner;
use std::alloc::{AllocError, Global};
use walker_run::run;
use way_io::{MemFiles, MemSink, Source};

/// The words of a session over pentagons, four round each corner.
pub(crate) const SESSION: &str = "run p54.tess 0 --rules p54.json";

/// The files of that session, and these bytes under the name `x`.
pub(crate) fn files(alloc: Global, x: &[u8]) -> Result<MemFiles, AllocError> {
    let mut files = MemFiles::new(alloc, &[])?;
    files.add("p54.tess", PENTAGONS_TESS.as_bytes())?;
    files.add("p54.json", PENTAGONS_RULES.as_bytes())?;
    files.add("x", x)?;
    Ok(files)
}

/// The exit status of the words, separated by spaces, over files, an input and a sink.
pub(crate) fn code<I: Source>(
    alloc: Global,
    words: &str,
    files: &mut MemFiles,
    input: &mut I,
    out: &mut MemSink,
) -> Result<u8, AllocError> {
    let mut list = Vec::new(alloc);
    for word in words.split(' ') {
        list.push(String::from_str(alloc, word)?)?;
    }
    let mut teacher = Learner::new(alloc);
    Ok(run(alloc, list.as_slice(), files, input, out, &mut teacher).code())
}
