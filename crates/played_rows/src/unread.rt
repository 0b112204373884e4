// Words that could not be read: they are no words, or there was no memory for them.
use crate::told::tell;
use std::alloc::{AllocError, Global};
use std::io::{Error, ErrorKind};
use walker_run::words_read;

/// How many words there are where they could not be read for this cause, or the exit status.
fn tell_cause(alloc: Global, cause: ErrorKind, said: &mut Vec<u8>) -> Result<(), AllocError> {
    let line = match words_read(alloc, Err(Error::from(cause))) {
        Ok(words) => format!(in alloc; "{} words\n", words.len())?,
        Err(status) => format!(in alloc; "exit {}\n", status.code())?,
    };
    tell(said, &line)
}

pub(crate) fn tell_unread_words(alloc: Global, said: &mut Vec<u8>) -> Result<(), AllocError> {
    tell_cause(alloc, ErrorKind::InvalidData, said)?;
    tell_cause(alloc, ErrorKind::OutOfMemory, said)
}
