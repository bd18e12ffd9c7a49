//! Finds the content of a literal, which is the text between its quotes.
ghost use Rattle.std.specs.Prelude.{◌≡◌, codes, IfSome, IsTrue, MatchOption, None, Some};
ghost use Rattle.std.specs.Str.{IsUtf8, chars};
ghost use Rattle.lexical.specs.Ascii.{all_ascii};
ghost use Rattle.pm_token.specs.SingleValue.{single_content as single};
ghost use Rattle.pm_token.specs.Content.{before, strip_front, cooked_content as cooked, hashed_content as hashed};
ghost use Rattle.pm_token.specs.Content.{raw_content as raw};

/// Returns the text after this ASCII prefix.
fn past_prefix<'a>(text: &'a str, front: &str) -> Option<&'a str>
    requires { IsTrue (all_ascii front.now) }
    ensures found { MatchOption result (strip_front front.now (chars text.now) ≡ None)
        (λ rest. strip_front front.now (chars text.now) ≡ Some (chars rest.now)) }
    ensures utf8 { IfSome result (λ rest. IsUtf8 rest.now) }
{
    text.strip_prefix(front)
}

/// Returns the text before a quote at its end.
fn before_quote(text: &str) -> Option<&str>
    ensures { MatchOption result (before (codes "\"") (chars text.now) ≡ None)
        (λ front. before (codes "\"") (chars text.now) ≡ Some (chars front.now)) }
{
    text.strip_suffix('"')
}

/// Returns the text after this ASCII prefix and before a quote at its end (`cooked-content`).
pub fn cooked_content<'a>(text: &'a str, front: &str) -> Option<&'a str>
    requires { IsTrue (all_ascii front.now) }
    ensures { MatchOption result (cooked front.now (chars text.now) ≡ None)
        (λ content. cooked front.now (chars text.now) ≡ Some (chars content.now)) }
{
    before_quote(past_prefix(text, front)?)
}

/// Returns the text before a single quote at its end.
fn before_single_quote(text: &str) -> Option<&str>
    ensures { MatchOption result (before (codes "'") (chars text.now) ≡ None)
        (λ front. before (codes "'") (chars text.now) ≡ Some (chars front.now)) }
{
    text.strip_suffix('\'')
}

/// Returns the text after this ASCII prefix and before a single quote at its end (`single-content`).
pub fn single_content<'a>(text: &'a str, front: &str) -> Option<&'a str>
    requires { IsTrue (all_ascii front.now) }
    ensures { MatchOption result (single front.now (chars text.now) ≡ None)
        (λ content. single front.now (chars text.now) ≡ Some (chars content.now)) }
{
    before_single_quote(past_prefix(text, front)?)
}

/// Returns the text before a hash sign at its end.
fn before_hash(text: &str) -> Option<&str>
    ensures found { MatchOption result (before (codes "#") (chars text.now) ≡ None)
        (λ front. before (codes "#") (chars text.now) ≡ Some (chars front.now)) }
    ensures utf8 { IfSome result (λ front. IsUtf8 front.now) }
{
    text.strip_suffix('#')
}

/// Returns the text between quotes that have equally many hash signs outside of them.
fn hashed_content(text: &str) -> Option<&str>
    ensures { MatchOption result (hashed (chars text.now) ≡ None)
        (λ content. hashed (chars text.now) ≡ Some (chars content.now)) }
{
    let mut quoted = text;
    while let Some(after_hash) = past_prefix(quoted, "#") {
        quoted = before_hash(after_hash)?;
    }
    cooked_content(quoted, "\"")
}

/// Returns the text after this ASCII prefix, without its quotes and hash signs (`raw-content`).
pub fn raw_content<'a>(text: &'a str, front: &str) -> Option<&'a str>
    requires { IsTrue (all_ascii front.now) }
    ensures { MatchOption result (raw front.now (chars text.now) ≡ None)
        (λ content. raw front.now (chars text.now) ≡ Some (chars content.now)) }
{
    hashed_content(past_prefix(text, front)?)
}
