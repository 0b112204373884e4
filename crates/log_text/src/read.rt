// Reading the text of a log, line by line.
ghost use Rattle.std.specs.Prelude.{◌≡◌, ◌≢◌, ◌⊎◌, ℕ, List, [], ◌++◌, All, IfOk, IsErrOf, MatchResult};
ghost use Rattle.tile_model.specs.Relation.{Change as Entry};
ghost use Rattle.log_model.specs.LogTexts.{HasText, log_text, StartsBad, IsFirstBadLine};

use crate::line::{next_line, read_change};
use log_model::Change;
use log_model::laws::text_laws;
use std::alloc::{AllocError, Global};
use thiserror::Error;

/// Why no log was read.
#[derive(Clone, Copy, Debug, PartialEq, Eq, Error)]
pub enum LogTextFault {
    /// The line of this number, counted from 1, is the first that is no change's text, or that no
    /// line feed ends.
    #[error("line {0} is bad")]
    Line(u64),
    /// There is no memory for the changes.
    #[error("out of memory")]
    Memory,
}

impl From<AllocError> for LogTextFault {
    ghost use Rattle.std.specs.Prelude.{◌≡◌};
    ghost use Rattle.log_text.specs.declared.read.LogTextFault.TheVariants.{Memory};

    ghost from_gives = { λ _ fault. fault ≡ Memory };

    fn from(_: AllocError) -> Self {
        LogTextFault::Memory
    }
}

/// The changes of the lines before the first bad one, and the bytes from there on: none where no
/// line is bad.
fn read_changes(alloc: Global, bytes: &[u8]) -> Result<(Vec<Change>, &[u8]), AllocError>
    ensures texts { IfOk result (λ parts. All HasText parts.0.items) }
    ensures split { IfOk result (λ parts.
        bytes.now ≡ log_text parts.0.items ++ parts.1.now) }
    ensures bad { IfOk result (λ parts. parts.1.now ≢ [] → StartsBad parts.1.now) }
{
    let mut log = Vec::new(alloc);
    let mut rest = bytes;
    while let Some((line, behind)) = next_line(rest) {
        let Some(change) = read_change(line) else {
            return Ok((log, rest));
        };
        log.push(change)?;
        rest = behind;
    }
    Ok((log, rest))
}

/// Reads the text of a log: a line for each change, which a line feed ends, of `ins` or `del`, the
/// place in digits without leading zeros and less than 2^64, and the digit of the loop, 1 to 5, each
/// number behind one space. No bytes are the empty log.
/// It takes time in proportion to the bytes.
///
/// # Errors
///
/// `Line` is the first line that is written otherwise, counted from 1; it comes wherever a line is.
/// `Memory` comes where there is none for the changes.
pub fn read_log(alloc: Global, bytes: &[u8]) -> Result<Vec<Change>, LogTextFault>
    ensures text { IfOk result (λ log.
        All HasText log.items × (log_text log.items ≡ bytes.now)) }
    ensures line { (n : ℕ) → IsErrOf result (LogTextFault.Line n) → IsFirstBadLine bytes.now n }

    // And each answer comes wherever its cause is there, unless memory runs out.
    ensures every_text { (log : List Entry) → All HasText log → log_text log ≡ bytes.now
        → MatchResult result (λ r. r.items ≡ log) (λ fault. fault ≡ LogTextFault.Memory) }
    ensures every_bad_line { (n : ℕ) → IsFirstBadLine bytes.now n
        → MatchResult result (λ _. ⊥)
        (λ fault. (fault ≡ LogTextFault.Line n) ⊎ (fault ≡ LogTextFault.Memory)) }
{
    // That a text is that of one log, and that one line is the first bad one, are laws.
    text_laws();
    let (log, rest) = read_changes(alloc, bytes)?;
    if !rest.is_empty() {
        return Err(LogTextFault::Line(log.len() as u64 + 1));
    }
    Ok(log)
}
