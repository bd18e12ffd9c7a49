//! Reports the hidden text of a source.
ghost use Rattle.std.specs.Prelude.{◌≡◌, ◌∷◌, [], ◌+◌, ◌<◌, ◌^◌, IfOk, List, OnOk, ℕ, encode_utf8, if◌then◌else◌};
ghost use Rattle.std.specs.Prelude.{length};
ghost use Rattle.std.specs.Str.{chars};
ghost use Rattle.lexical.specs.Found.{LendsText, kind_of};
ghost use Rattle.rust_check.specs.Message.{finding_of};
ghost use Rattle.rust_check.specs.NameForms.{AreFirst};
ghost use Rattle.rust_check.specs.Names.{found_by_kind, names_after};
ghost use Rattle.rust_check.specs.TextPosition.{places_after};
ghost use Rattle.rust_check.specs.Telling.{IsWithin, Tells};
ghost use Rattle.rust_check.specs.Report.{TellsHidden, TellsPieces, balanced_after, found_at_character, found_in_piece};
ghost use Rattle.rust_check.specs.Report.{found_one, is_literal, is_spared, name_of_hidden, says_of_hidden};

use crate::ends::{odd, tell_line_ends};
use crate::finding::{Finding, TextPosition};
use crate::hidden::{Hidden, hides_as};
use crate::name_forms::NameForms;
use crate::names::is_mixed;
use crate::options::Form;
use crate::turns::is_balanced;
use crate::writing::write_line;
use proc_macro2::{PieceKind, pieces};
use std::alloc::{AllocError, Global};
use std::io;
use std::io::Write;
use unicode_normalization::is_nfc;

/// Writes a line for each position of the text where something is hidden, and returns whether there is one. The hidden
/// characters come first, piece by piece, and then what is odd about the line ends.
pub fn tell_hidden<W: Write>(
    alloc: Global,
    form: Form,
    path: &str,
    text: &str,
    writer: &mut W,
) -> io::Result<bool>
    ensures { IfOk result (λ found. TellsHidden form path.now (chars text.now) (W.contents writer.old)
        (W.contents writer.new) found) }
{
    let mut found = false;
    tell_pieces(alloc, form, path, text, &mut found, writer)?;
    tell_line_ends(alloc, form, path, text, &mut found, writer)?;
    Ok(found)
}

/// Writes a line for each hidden character in the text's pieces and in what follows the last piece, and for each odd
/// name.
fn tell_pieces<W: Write>(
    alloc: Global,
    form: Form,
    path: &str,
    text: &str,
    found: &mut bool,
    writer: &mut W,
) -> io::Result<()>
    ensures { OnOk result (TellsPieces form path.now (chars text.now) (W.contents writer.old) (W.contents writer.new)
        found.old found.new) }
{
    let mut place = TextPosition::front();
    let mut forms = NameForms::new(alloc);
    let mut walk = pieces(text);
    while let Some(next) = walk.next_piece() {
        tell_name(
            alloc,
            form,
            path,
            place,
            next.piece.kind,
            next.text,
            &mut forms,
            found,
            writer,
        )?;
        let literal = is_literal(next.piece.kind);
        place = tell_piece(alloc, form, path, literal, place, next.text, found, writer)?;
    }
    tell_piece(alloc, form, path, false, place, walk.rest(), found, writer)?;
    Ok(())
}

/// Writes a line for each oddity of the piece, if it is a name, and adds the name to `forms`.
fn tell_name<W: Write>(
    alloc: Global,
    form: Form,
    path: &str,
    place: TextPosition,
    kind: PieceKind<'_>,
    text: &str,
    forms: &mut NameForms,
    found: &mut bool,
    writer: &mut W,
) -> io::Result<()>
    requires { LendsText kind }
    ensures { OnOk result ((piece : List ℕ) (before : List (List ℕ)) → AreFirst forms.old.first before
        → Tells form path.now (found_by_kind place before (kind_of kind.entry piece) (chars text.now))
        (W.contents writer.old) (W.contents writer.new) found.old found.new
        × AreFirst forms.new.first (names_after before (kind_of kind.entry piece))) }
{
    let PieceKind::Name { name, .. } = kind else {
        return Ok(());
    };
    let is_other_form = !is_nfc(alloc, name)?;
    let finding = odd(
        "name-not-in-nfc",
        "a name that is not in the form NFC",
        text,
        place,
    );
    tell_if(alloc, form, path, is_other_form, &finding, found, writer)?;
    let finding = odd(
        "name-of-mixed-scripts",
        "a name of scripts that are not written together",
        text,
        place,
    );
    tell_if(alloc, form, path, is_mixed(name), &finding, found, writer)?;
    let is_other = forms.take(alloc, name)?;
    let finding = odd(
        "name-like-another",
        "a name that the form NFKC makes one with a name before it",
        text,
        place,
    );
    tell_if(alloc, form, path, is_other, &finding, found, writer)
}

/// Writes a line for the finding if `is` is true.
fn tell_if<W: Write>(
    alloc: Global,
    form: Form,
    path: &str,
    is: bool,
    finding: &Finding<'_>,
    found: &mut bool,
    writer: &mut W,
) -> io::Result<()>
    ensures { OnOk result (Tells form path.now (if is then finding_of finding.now ∷ [] else []) (W.contents writer.old)
        (W.contents writer.new) found.old found.new) }
{
    if !is {
        return Ok(());
    }
    *found = true;
    write_line(alloc, form, path, finding, writer)
}

/// Whether the piece is a literal.
fn is_literal(kind: PieceKind<'_>) -> bool
    ensures { (text : List ℕ) → result ≡ is_literal (kind_of kind.entry text) }
{
    matches!(kind, PieceKind::Literal)
}

/// Writes a line for each hidden character of a piece that begins at `place`, and returns where the piece ends.
fn tell_piece<W: Write>(
    alloc: Global,
    form: Form,
    path: &str,
    literal: bool,
    place: TextPosition,
    text: &str,
    found: &mut bool,
    writer: &mut W,
) -> io::Result<TextPosition>
    requires within { IsWithin place }
    requires room { place.begin + length text.now + 1 < 2 ^ 64 }
    ensures report { OnOk result (Tells form path.now (found_in_piece literal place (chars text.now))
        (W.contents writer.old) (W.contents writer.new) found.old found.new) }
    ensures place { IfOk result (λ after. after ≡ places_after place (chars text.now)) }
    ensures within { IfOk result IsWithin }
    ensures begin { IfOk result (λ (after : TextPosition). after.begin ≡ place.begin + length text.now) }
{
    let mut at = place;
    let mut balanced = is_balanced(alloc, text)?;
    let mut rest = text.chars();
    while let Some(c) = rest.next() {
        tell_character(alloc, form, path, literal, balanced, at, c, found, writer)?;
        balanced = balanced_after(alloc, balanced, c, rest.as_str())?;
        at = at.after(c);
    }
    Ok(at)
}

/// Whether the controls of direction are balanced on the line on which the text after this character begins.
fn balanced_after(alloc: Global, balanced: bool, c: char, rest: &str) -> Result<bool, AllocError>
    ensures { IfOk result (λ is. is ≡ balanced_after balanced c (chars rest.now)) }
{
    if c == '\n' {
        is_balanced(alloc, rest)
    } else {
        Ok(balanced)
    }
}

/// Writes a line for the character at this place, if it hides something.
fn tell_character<W: Write>(
    alloc: Global,
    form: Form,
    path: &str,
    literal: bool,
    balanced: bool,
    place: TextPosition,
    c: char,
    found: &mut bool,
    writer: &mut W,
) -> io::Result<()>
    ensures { OnOk result (Tells form path.now (found_at_character literal balanced place c)
        (W.contents writer.old) (W.contents writer.new) found.old found.new) }
{
    let Some(hidden) = hides_as(c) else {
        return Ok(());
    };
    if is_spared(literal, place, c, hidden) {
        return Ok(());
    }
    let mut bytes = [0; 4];
    let finding = finding(balanced, place, hidden, c, c.encode_utf8(&mut bytes));
    *found = true;
    write_line(alloc, form, path, &finding, writer)
}

/// Whether a hidden character is not reported: white space in a literal, and U+FEFF at the start of the text.
fn is_spared(literal: bool, place: TextPosition, c: char, hidden: Hidden) -> bool
    ensures { result ≡ is_spared literal place c hidden }
{
    match hidden {
        Hidden::White => literal,
        Hidden::Invisible => c == '\u{FEFF}' && place.begin == 0,
        _ => false,
    }
}

/// Returns the finding for a hidden character, whose text is `here`.
fn finding<'a>(
    balanced: bool,
    place: TextPosition,
    hidden: Hidden,
    c: char,
    here: &'a str,
) -> Finding<'a>
    requires { here.now ≡ encode_utf8 c }
    ensures { finding_of result ≡ found_one balanced place hidden c }
{
    Finding {
        name: name_of_hidden(balanced, hidden),
        says: says_of_hidden(balanced, hidden),
        place,
        front: "",
        here,
        rest: "",
    }
}

/// Returns the short name of what hides something.
fn name_of_hidden(balanced: bool, hidden: Hidden) -> &'static str
    ensures { result.now ≡ name_of_hidden balanced hidden }
{
    match hidden {
        Hidden::Direction if balanced => "direction-control",
        Hidden::Direction => "unbalanced-direction-control",
        Hidden::Joiner => "joining-character",
        Hidden::Invisible => "invisible-character",
        Hidden::Control => "control-character",
        Hidden::White => "odd-white-space",
    }
}

/// Returns the words about what hides something.
fn says_of_hidden(balanced: bool, hidden: Hidden) -> &'static str
    ensures { result.now ≡ says_of_hidden balanced hidden }
{
    match hidden {
        Hidden::Direction if balanced => "a control of the text's direction",
        Hidden::Direction =>
            "a control of the text's direction, on a line where they are not balanced",
        Hidden::Joiner => "a character that joins its neighbours or keeps them apart",
        Hidden::Invisible => "a character that nobody sees",
        Hidden::Control => "a control character",
        Hidden::White => "white space that is no space, tab or line end",
    }
}
