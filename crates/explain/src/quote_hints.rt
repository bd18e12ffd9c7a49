//! Finds the quote that came nearest to ending a raw string.

ghost use Rattle.std.specs.Prelude.{◌≡◌, ◌≤◌, [], IfSome, MatchOption};
ghost use Rattle.std.specs.Str.{chars};
ghost use Rattle.lexical.specs.Form.{HasNone};
ghost use Rattle.lexical.specs.Rule.{Stands};
ghost use Rattle.explain.specs.HintWalk.{CameNearest, longer};
ghost use Rattle.explain.specs.Shapes.{closed_raw_body};

use lexical::parts::{Class, TextCursor, skip, skip_to};

/// Returns the cursors before and after the quote with the most hash signs right after it, together with these. Of
/// several such quotes it is the first.
pub fn nearest(inside: TextCursor<'_>) -> Option<(TextCursor<'_>, TextCursor<'_>)>
    ensures { MatchOption result (HasNone (Stands (closed_raw_body [])) (chars inside.entry.rest.now))
        (λ x. CameNearest inside.entry x.0 x.1) }
{
    let mut best = None;
    let mut quote = skip_to(inside, b'"');
    while let Some(after) = quote.past("\"") {
        let end = skip(after, Class::Hash);
        best = longer(best, quote, end);
        quote = skip_to(end, b'"');
    }
    best
}

/// Returns the pair of cursors with more characters between them: `best`, or `from` and `to`. If both have the same
/// number, it is `best`.
fn longer<'a>(
    best: Option<(TextCursor<'a>, TextCursor<'a>)>,
    from: TextCursor<'a>,
    to: TextCursor<'a>,
) -> Option<(TextCursor<'a>, TextCursor<'a>)>
    requires ordered { from.chars_before ≤ to.chars_before }
    requires best { IfSome best (λ x. x.0.chars_before ≤ x.1.chars_before) }
    ensures { result ≡ longer best.entry from.entry to.entry }
{
    match best {
        Some((first, end))
            if to.chars_before - from.chars_before <= end.chars_before - first.chars_before => best,
        _ => Some((from, to)),
    }
}
