//! Compares two texts, word by word.
ghost use Rattle.std.specs.Prelude.{◌≡◌, ◌↔◌, IfOk, IfSome, IsTrue, Some, option_map};
ghost use Rattle.std.specs.Str.{chars};
ghost use Rattle.pm_token.specs.Escaped.{string_text};
ghost use Rattle.same.specs.SourceWord.{HasText, word_of};
ghost use Rattle.same.specs.Same.{ComparesTexts};

use crate::source_word::SourceWord;
use crate::words::Words;
use pm_token::parts::TextBuilder;
use std::alloc::{AllocError, Global};

/// Returns where two texts first differ in their tokens and, if `comments` is true, in their comments. The result is
/// the rest of each text from there on, which is empty if the text has no more words. Returns `None` if the texts are
/// the same.
pub fn difference<'a>(
    alloc: Global,
    comments: bool,
    first: &'a str,
    second: &'a str,
) -> Result<Option<(&'a str, &'a str)>, AllocError>
    ensures { IfOk result (ComparesTexts comments (chars first.now) (chars second.now)) }
{
    let mut ones = Words::new(first, comments);
    let mut others = Words::new(second, comments);
    while let Some(one) = ones.next() {
        let other = others.next();
        if !is_same(alloc, one, other)? {
            return Ok(Some((ones.here, others.here)));
        }
    }
    match others.next() {
        Some(_) => Ok(Some((ones.here, others.here))),
        None => Ok(None),
    }
}

/// Whether there is another word and it is the same as the first.
fn is_same(
    alloc: Global,
    one: SourceWord<'_>,
    other: Option<SourceWord<'_>>,
) -> Result<bool, AllocError>
    requires one { HasText one }
    requires other { IfSome other HasText }
    ensures { IfOk result (λ same. IsTrue same ↔ Some (word_of one.entry) ≡ option_map word_of other.entry) }
{
    match other {
        Some(other) => is_alike(alloc, one, other),
        None => Ok(false),
    }
}

/// Whether the two words are the same.
fn is_alike(alloc: Global, one: SourceWord<'_>, other: SourceWord<'_>) -> Result<bool, AllocError>
    requires one { HasText one }
    requires other { HasText other }
    ensures { IfOk result (λ same. IsTrue same ↔ word_of one.entry ≡ word_of other.entry) }
{
    Ok(match (one, other) {
        (SourceWord::Name(raw, name), SourceWord::Name(other_raw, other)) => raw == other_raw
            && name == other,
        (SourceWord::Mark(joint, mark), SourceWord::Mark(other_joint, other)) => {
            joint == other_joint && mark == other
        }
        (SourceWord::Literal(text), SourceWord::Literal(other)) => text == other,
        (SourceWord::DocText(text), SourceWord::DocText(other)) => text == other,
        (SourceWord::DocText(text), SourceWord::Literal(literal)) => is_string_of(
            alloc, text, literal,
        )?,
        (SourceWord::Literal(literal), SourceWord::DocText(text)) => is_string_of(
            alloc, text, literal,
        )?,
        (SourceWord::Opener(delimiter), SourceWord::Opener(other)) => delimiter == other,
        (SourceWord::Closer(delimiter), SourceWord::Closer(other)) => delimiter == other,
        (SourceWord::Comment(text), SourceWord::Comment(other)) => text == other,
        _ => false,
    })
}

/// Whether the literal is the one that `Literal::string` writes for the text.
fn is_string_of(alloc: Global, text: &str, literal: &str) -> Result<bool, AllocError>
    ensures { IfOk result (λ same. IsTrue same ↔ string_text (chars text.now) ≡ chars literal.now) }
{
    let mut string = TextBuilder::with_room(alloc, 0)?;
    string.push_string(text)?;
    Ok(string.into_string().as_str() == literal)
}
