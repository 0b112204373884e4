// Printing the text of a log.
ghost use Rattle.std.specs.Prelude.{◌≡◌, ◌∷◌, [], ◌++◌, All, IfOk, OnOk};
ghost use Rattle.log_model.specs.LogTexts.{HasText, change_word, change_text, log_text};

use itoa::Buffer;
use log_model::Change;
use std::alloc::{AllocError, Global};

fn push_word(text: &mut Vec<u8>, insert: bool) -> Result<(), AllocError>
    ensures { OnOk result (text.new.items ≡ text.old.items ++ change_word insert) }
{
    if insert {
        text.extend_from_slice(b"ins ")
    } else {
        text.extend_from_slice(b"del ")
    }
}

fn push_change(text: &mut Vec<u8>, change: Change) -> Result<(), AllocError>
    requires { HasText change }
    ensures { OnOk result (text.new.items
        ≡ text.old.items ++ (change_text change ++ 10 ∷ [])) }
{
    let mut buffer = Buffer::new();
    push_word(text, change.insert)?;
    text.extend_from_slice(buffer.format(change.at).as_bytes())?;
    text.extend_from_slice(&[b' ', b'0' + change.which, b'\n'])
}

/// Prints the text of a log whose loops have the numbers 1 to 5: the text that `read_log` reads.
pub fn print_log(alloc: Global, log: &[Change]) -> Result<Vec<u8>, AllocError>
    requires { All HasText log.now }
    ensures { IfOk result (λ text. text.items ≡ log_text log.now) }
{
    let mut text = Vec::new(alloc);
    for change in log {
        push_change(&mut text, *change)?;
    }
    Ok(text)
}
