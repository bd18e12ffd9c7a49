//! The words that are compared.
ghost use Rattle.std.specs.Prelude.{◌≡◌, false};
ghost use Rattle.pm_stream.specs.Delimited.{delimiter_of};
ghost use Rattle.same.specs.SourceWord.{step_after};

use pm_token::Delimiter;

/// One word: a token, an opener, a closer or a comment.
#[derive(Clone, Copy)]
pub enum SourceWord<'a> {
    /// An identifier: whether it is raw, and its name.
    Name(bool, &'a str),
    /// A mark: whether it is Joint, and its character.
    Mark(bool, char),
    /// A literal as it is written.
    Literal(&'a str),
    /// The string literal for the text of a doc comment, given by that text.
    DocText(&'a str),
    /// The opener of a group.
    Opener(Delimiter),
    /// The closer of a group.
    Closer(Delimiter),
    /// A comment, which is a word only if comments are compared.
    Comment(&'a str),
}

/// The next token of the attribute that a doc comment is read as.
#[derive(Clone, Copy)]
pub enum DocStep {
    /// `#` of an outer attribute, before `[`.
    Hash,
    /// `#` of an inner attribute, before `!`.
    InnerHash,
    /// `!`.
    Bang,
    /// `[`.
    Opener,
    /// `doc`.
    Name,
    /// `=`.
    Equals,
    /// The string literal with the comment's text.
    Text,
    /// `]`.
    Closer,
}

/// Returns the mark with the spacing Alone.
pub fn alone<'a>(mark: char) -> SourceWord<'a>
    ensures { result ≡ SourceWord.Mark false mark }
{
    SourceWord::Mark(false, mark)
}

/// Returns the step after this one, if there is one.
pub fn after(step: DocStep) -> Option<DocStep>
    ensures { result ≡ step_after step }
{
    match step {
        DocStep::Hash | DocStep::Bang => Some(DocStep::Opener),
        DocStep::InnerHash => Some(DocStep::Bang),
        DocStep::Opener => Some(DocStep::Name),
        DocStep::Name => Some(DocStep::Equals),
        DocStep::Equals => Some(DocStep::Text),
        DocStep::Text => Some(DocStep::Closer),
        DocStep::Closer => None,
    }
}

/// Returns the delimiter of an opener or a closer.
pub fn delimiter(c: char) -> Delimiter
    ensures { result ≡ delimiter_of c }
{
    match c {
        '(' | ')' => Delimiter::Parenthesis,
        '{' | '}' => Delimiter::Brace,
        _ => Delimiter::Bracket,
    }
}
