//! Whether a name mixes scripts.
ghost use Rattle.std.specs.Prelude.{◌≡◌};
ghost use Rattle.std.specs.Str.{chars};
ghost use Rattle.rust_check.specs.Names.{are_apart, is_mixed, is_same, is_with_han, with_han, with_kana, with_other};
ghost use Rattle.rust_check.specs.Names.{written_with};

use ucd_script::Script;

/// The scripts of the characters of a name so far.
#[derive(Clone, Copy, Debug, PartialEq, Eq)]
pub enum Writing {
    /// No script yet, or only characters that all scripts share.
    Open,
    /// Han only. Japanese, Korean and Bopomofo may follow.
    Han,
    /// Hiragana or Katakana, with or without Han.
    Japanese,
    /// One other script, with or without Han if Han is written together with it.
    One(Script),
    /// Scripts that are not written together.
    Mixed,
}

/// Whether the name has characters of scripts that are not written together.
pub fn is_mixed(name: &str) -> bool
    ensures { result ≡ is_mixed (chars name.now) }
{
    let mut writing = Writing::Open;
    for c in name.chars() {
        writing = writing.with(Script::for_char(c));
    }
    writing.are_apart()
}

impl Writing {
    /// Whether the scripts are not written together.
    fn are_apart(self) -> bool
        ensures { result ≡ are_apart self }
    {
        matches!(self, Writing::Mixed)
    }

    /// Returns the scripts with one more character, which is of this script.
    fn with(self, script: Script) -> Writing
        ensures { result ≡ written_with self script }
    {
        if is_same(script, Script::Common)
            || is_same(script, Script::Inherited)
            || is_same(script, Script::Unknown)
        {
            self
        } else if is_same(script, Script::Han) {
            self.with_han()
        } else if is_same(script, Script::Hiragana) || is_same(script, Script::Katakana) {
            self.with_kana()
        } else {
            self.with_other(script)
        }
    }

    fn with_han(self) -> Writing
        ensures { result ≡ with_han self }
    {
        match self {
            Writing::Open | Writing::Han => Writing::Han,
            Writing::Japanese => Writing::Japanese,
            Writing::One(script) if is_with_han(script) => self,
            _ => Writing::Mixed,
        }
    }

    fn with_kana(self) -> Writing
        ensures { result ≡ with_kana self }
    {
        match self {
            Writing::Open | Writing::Han | Writing::Japanese => Writing::Japanese,
            _ => Writing::Mixed,
        }
    }

    fn with_other(self, script: Script) -> Writing
        ensures { result ≡ with_other self script }
    {
        match self {
            Writing::Open => Writing::One(script),
            Writing::Han if is_with_han(script) => Writing::One(script),
            Writing::One(before) if is_same(before, script) => self,
            _ => Writing::Mixed,
        }
    }
}

/// Whether the script is written together with Han: Hangul and Bopomofo are.
fn is_with_han(script: Script) -> bool
    ensures { result ≡ is_with_han script }
{
    is_same(script, Script::Hangul) || is_same(script, Script::Bopomofo)
}

/// Whether the two scripts are the same.
fn is_same(a: Script, b: Script) -> bool
    ensures { result ≡ is_same a b }
{
    a.number() == b.number()
}
