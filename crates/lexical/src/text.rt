//! Basic functions on texts.

ghost use Rattle.std.specs.Prelude.{
  ◌≡◌,
  ◌≤◌,
  ◌∷◌,
  ◌++◌,
  [],
  List,
  ℕ,
  IfSome,
  IsTrue,
  false,
  length,
  MatchOption,
  if◌then◌else◌,
  nat_eq,
};
ghost use Rattle.std.specs.Cmp.Lexicographic.{pointwise};
ghost use Rattle.std.specs.List.{count_by};
ghost use Rattle.std.specs.Str.{IsUtf8, chars};
ghost use Rattle.lexical.specs.Ascii.{all_ascii};
ghost use Rattle.lexical.specs.Character.{carriage_return};
ghost use Rattle.lexical.specs.Text.{begins_with, ends_with, is_first_byte};

/// Splits a text after its first character, or returns `None` if it is empty.
#[tactic(auto, using(std::proofs::lemmas::Str::chars_past_char))]
#[inline(always)]
pub fn split_first(text: &str) -> Option<(char, &str)>
    ensures split { MatchOption result (chars text.now ≡ []) (λ x. chars text.now ≡ x.0 ∷ chars x.1.now) }
    ensures utf8 { IfSome result (λ x. IsUtf8 x.1.now) }
{
    let mut characters = text.chars();
    let first = characters.next()?;
    Some((first, characters.as_str()))
}

/// How many bytes `char_count` tests at once. Mostly they are ASCII.
const BLOCK: usize = 64;

/// Counts the characters of a text, which are its bytes that begin one.
pub fn char_count(text: &str) -> usize
    ensures { result ≡ length (chars text.now) }
{
    if text.is_ascii() {
        return text.len();
    }
    let mut rest = text.as_bytes();
    let mut count = 0;
    while rest.len() > BLOCK {
        count += first_bytes(&rest[..BLOCK]);
        rest = &rest[BLOCK..];
    }
    count + first_bytes(rest)
}

/// Counts the bytes of a text that begin a character.
fn first_bytes(bytes: &[u8]) -> usize
    ensures count { result ≡ count_by is_first_byte bytes.now }
    ensures within { result ≤ length bytes.now }
{
    if bytes.is_ascii() {
        return bytes.len();
    }
    let mut count = 0;
    for byte in bytes {
        if *byte < 0x80 || *byte >= 0xC0 {
            count += 1;
        }
    }
    count
}

/// Whether the text begins with the ASCII text `front`.
#[inline(always)]
pub fn begins(text: &str, front: &str) -> bool
    requires { IsTrue (all_ascii front.now) }
    ensures { result ≡ begins_with front.now (chars text.now) }
{
    text.starts_with(front)
}

/// Whether the text equals the ASCII text `ascii`.
pub fn is_text(text: &str, ascii: &str) -> bool
    requires { IsTrue (all_ascii ascii.now) }
    ensures { result ≡ pointwise nat_eq (chars text.now) ascii.now }
{
    text == ascii
}

/// Returns the text before `rest`, which must be a suffix of `text`.
#[inline(always)]
pub fn before<'a>(text: &'a str, rest: &str) -> &'a str
    requires { (front : List ℕ) × (chars text.now ≡ front ++ chars rest.now) }
    ensures { (front : List ℕ) → chars text.now ≡ front ++ chars rest.now → chars result.now ≡ front }
{
    &text[..text.len() - rest.len()]
}

/// Returns the text after the ASCII text `front`, or `None` if the text does not begin with it.
#[inline(always)]
pub fn strip<'a>(text: &'a str, front: &str) -> Option<&'a str>
    requires { IsTrue (all_ascii front.now) }
    ensures split { MatchOption result (begins_with front.now (chars text.now) ≡ false)
        (λ rest. chars text.now ≡ front.now ++ chars rest.now) }
    ensures utf8 { IfSome result (λ rest. IsUtf8 rest.now) }
{
    text.strip_prefix(front)
}

/// Returns the text without the CR at its end, if it ends with one.
pub fn without_return(text: &str) -> &str
    ensures { chars text.now
        ≡ chars result.now ++ (if ends_with carriage_return (chars text.now) then carriage_return ∷ [] else []) }
{
    match text.strip_suffix('\r') {
        Some(front) => front,
        None => text,
    }
}
