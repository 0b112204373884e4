//! Bytes, cut at a separator.
ghost use Rattle.std.specs.Prelude.{◌≡◌, ◌∷◌, ◌++◌, IfSome, IfNone};
ghost use Rattle.command_text.specs.Words.{Lacks};

use memchr::memchr;

/// The bytes in front of the first byte that is the separator, and those behind it.
#[tactic(auto, using(crate::proofs::Splits::cut_at_slice, crate::proofs::Splits::lacks_before, crate::proofs::Splits::lacks_all))]
pub fn cut_at(bytes: &[u8], separator: u8) -> Option<(&[u8], &[u8])>
    ensures split { IfSome result (λ parts. bytes.now ≡ parts.0.now ++ separator ∷ parts.1.now) }
    ensures first { IfSome result (λ parts. Lacks separator parts.0.now) }
    ensures none { IfNone result (Lacks separator bytes.now) }
{
    let at = memchr(separator, bytes)?;
    Some((&bytes[..at], &bytes[at + 1..]))
}
