//! Lines, cut out of a piece of the stream.
ghost use Rattle.std.specs.Prelude.{◌≡◌, ◌≤◌, ◌∷◌, ◌++◌, length, IfSome, IfNone};
ghost use Rattle.line_server.specs.Lines.{feed, LacksFeed, text_of};

use command_text::cut_at;

/// The bytes in front of the first line feed, and those behind it.
pub(crate) fn next_line(bytes: &[u8]) -> Option<(&[u8], &[u8])>
    ensures split { IfSome result (λ parts. bytes.now ≡ parts.0.now ++ feed ∷ parts.1.now) }
    ensures line { IfSome result (λ parts. LacksFeed parts.0.now) }
    ensures none { IfNone result (LacksFeed bytes.now) }
{
    cut_at(bytes, b'\n')
}

/// The text of a line that a line feed ends: the line without the carriage return that stands last
/// in it, if one does.
pub(crate) fn text_of(line: &[u8]) -> &[u8]
    ensures text { result.now ≡ text_of line.now }
    ensures within { length result.now ≤ length line.now }
{
    match line.split_last() {
        Some((last, text)) if *last == b'\r' => text,
        _ => line,
    }
}
