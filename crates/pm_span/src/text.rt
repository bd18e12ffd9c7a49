//! Characters and lines of texts.
ghost use Rattle.std.specs.Prelude.{◌≡◌, ◌<◌, ◌≤◌, ◌↔◌, ◌∷◌, ◌++◌, ◌-◌, length, take, drop, IsTrue, IfSome};
ghost use Rattle.std.specs.Prelude.{MatchOption};
ghost use Rattle.std.specs.Str.{chars, IsUtf8};
ghost use Rattle.pm_span.specs.Line.{is_one_line};

use crate::plain::count_plain;

/// Returns the number of characters in the text, which is at most the number of its bytes.
pub fn char_count(text: &str) -> usize
    ensures { result ≡ length (chars text.now) }
{
    if text.is_ascii() {
        return text.len();
    }
    count_chars(text)
}

/// Counts the characters without a test for ASCII.
#[tactic(auto, using(std::proofs::lemmas::Str::chars_from_encodes))]
fn count_chars(text: &str) -> usize
    ensures { result ≡ length (chars text.now) }
{
    text.chars().count()
}

/// Returns whether the text has fewer than `count` characters.
///
/// The characters are counted only if the text has at least `count` bytes: no text has more characters than bytes.
#[tactic(auto, using(crate::proofs::AsciiLemmas::length_chars_le))]
pub(crate) fn has_fewer_chars(text: &str, count: usize) -> bool
    ensures { IsTrue result ↔ (length (chars text.now) < count) }
{
    text.len() < count || char_count(text) < count
}

/// Splits the text at its first line feed, which neither part has. Returns `None` if there is no line feed.
pub(crate) fn split_line(text: &str) -> Option<(&str, &str)>
    ensures split { MatchOption result (IsTrue (is_one_line (chars text.now)))
        (λ x. (chars text.now ≡ chars x.0.now ++ (10 ∷ chars x.1.now)) × IsTrue (is_one_line (chars x.0.now))) }
    ensures utf8 { IfSome result (λ x. IsUtf8 x.0.now × IsUtf8 x.1.now) }
{
    text.split_once('\n')
}

/// The first line of a text.
pub(crate) struct FirstLine<'a> {
    /// The number of its characters, without the line feed.
    pub(crate) count: usize,
    /// The line without its line feed, and the text after the line feed; `None` if the text has no line feed.
    pub(crate) split: Option<(&'a str, &'a str)>,
}

/// Returns the first line of the text. A line of ASCII is read once, 8 bytes at a time.
#[inline(always)]
pub(crate) fn first_line(text: &str) -> FirstLine<'_>
    ensures split { MatchOption result.split (IsTrue (is_one_line (chars text.now)))
        (λ x. (chars text.now ≡ chars x.0.now ++ (10 ∷ chars x.1.now)) × IsTrue (is_one_line (chars x.0.now))) }
    ensures utf8 { IfSome result.split (λ x. IsUtf8 x.0.now × IsUtf8 x.1.now) }
    ensures count { MatchOption result.split (result.count ≡ length (chars text.now))
        (λ x. result.count ≡ length (chars x.0.now)) }
{
    let plain = count_plain(text.as_bytes());
    match text.as_bytes().get(plain) {
        None => FirstLine {
            count: plain,
            split: None,
        },
        Some(b'\n') => FirstLine {
            count: plain,
            split: Some((&text[..plain], &text[plain + 1..])),
        },
        Some(_) => match split_line(text) {
            None => FirstLine {
                count: count_chars(text),
                split: None,
            },
            Some((line, after)) => FirstLine {
                count: count_chars(line),
                split: Some((line, after)),
            },
        },
    }
}

/// Returns the text after its first `count` characters.
pub(crate) fn skip_chars(text: &str, count: usize) -> &str
    requires { count ≤ length (chars text.now) }
    ensures value { chars result.now ≡ drop count (chars text.now) }
    ensures utf8 { IsUtf8 result.now }
{
    let mut rest = text.chars();
    for _ in 0..count {
        let _ = rest.next();
    }
    rest.as_str()
}

/// Returns the text before its last `count` characters.
pub(crate) fn skip_chars_back(text: &str, count: usize) -> &str
    requires { count ≤ length (chars text.now) }
    ensures value { chars result.now ≡ take (length (chars text.now) - count) (chars text.now) }
    ensures utf8 { IsUtf8 result.now }
{
    let mut front = text.chars();
    for _ in 0..count {
        let _ = front.next_back();
    }
    front.as_str()
}
