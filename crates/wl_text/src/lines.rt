//! The lines of a text.
ghost use Rattle.std.specs.Prelude.{◌≡◌, ◌≢◌, ◌<◌, ◌↔◌, ◌∷◌, ◌++◌, [], length, slice_index};
ghost use Rattle.std.specs.Prelude.{IsTrue, MatchOption, IfSome};
ghost use Rattle.std.specs.List.{All};
ghost use Rattle.std.specs.Str.Lines.{lines, strip_carriage_return};
ghost use Rattle.wl_text.specs.Lines.{IsSkipped, says_nothing, words};

use memchr::memchr;

/// The first line of a text, without its ending, and the rest of the text.
///
/// Each line ends with a line feed, which the last may lack. One carriage return before a line feed
/// is not part of its line.
pub fn first_line(text: &[u8]) -> (&[u8], &[u8])
    requires { 0 < length text.now }
    ensures line { lines text.now ≡ result.0.now ∷ lines result.1.now }
    ensures shorter { length result.1.now < length text.now }
{
    let (line, rest) = split_before(text, b'\n');
    match rest {
        [_, after @ ..] => (without_return(line), after),
        [] => (line, rest),
    }
}

/// The text before the first such byte, and the rest, which begins with that byte if it occurs.
pub fn split_before(text: &[u8], wanted: u8) -> (&[u8], &[u8])
    ensures whole { text.now ≡ result.0.now ++ result.1.now }
    ensures front { All (λ byte. byte ≢ wanted) result.0.now }
    ensures rest { 0 < length result.1.now → slice_index result.1.now 0 ≡ wanted }
{
    text.split_at(memchr(wanted, text).unwrap_or(text.len()))
}

/// The first word of a line, and the text after the space that ends it, if there is one.
pub fn first_word(line: &[u8]) -> (&[u8], Option<&[u8]>)
    ensures word { MatchOption result.1 (words line.now ≡ result.0.now ∷ [])
        (λ rest. words line.now ≡ result.0.now ∷ words rest.now) }
    ensures shorter { IfSome result.1 (λ rest. length rest.now < length line.now) }
{
    let (word, rest) = split_before(line, b' ');
    match rest {
        [_, after @ ..] => (word, Some(after)),
        [] => (word, None),
    }
}

// The line without one carriage return at its end, if it has one.
fn without_return(line: &[u8]) -> &[u8]
    ensures { result.now ≡ strip_carriage_return line.now }
{
    match line {
        [front @ .., b'\r'] => front,
        _ => line,
    }
}

/// Whether a line is skipped: it is empty, or a comment, which begins with `#`.
pub fn is_skipped(line: &[u8]) -> bool
    ensures skipped { IsTrue result ↔ IsSkipped line.now }
    ensures value { result ≡ says_nothing line.now }
{
    line.is_empty() || line[0] == b'#'
}
