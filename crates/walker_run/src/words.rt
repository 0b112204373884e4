//! The words of a call, as the machine hands them over.
ghost use Rattle.std.specs.Prelude.{◌≡◌, ◌≢◌, [], Ok, Err, IfOk, IfErr, MatchResult};
ghost use Rattle.std.specs.IoError.{error_kind};

use crate::status::Status;
use std::alloc::Global;
use std::io;
use std::io::ErrorKind;

/// The words of a call, after they were read or not. Words that are not UTF-8 are in no form, as no
/// words are.
///
/// # Errors
///
/// `Memory` where there was no memory for them.
pub fn words_read(alloc: Global, read: io::Result<Vec<String>>) -> Result<Vec<String>, Status>
    ensures words { IfOk read (λ words. result ≡ Ok words) }
    ensures memory { IfErr read
        (λ e. error_kind e ≡ ErrorKind.OutOfMemory → result ≡ Err Status.Memory) }
    ensures unreadable { IfErr read (λ e. error_kind e ≢ ErrorKind.OutOfMemory
        → MatchResult result (λ words. words.items ≡ []) (λ _. ⊥)) }
{
    let fault = match read {
        Ok(words) => return Ok(words),
        Err(fault) => fault,
    };
    if fault.kind() == ErrorKind::OutOfMemory {
        return Err(Status::Memory);
    }
    Ok(Vec::new(alloc))
}
