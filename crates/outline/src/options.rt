//! What the arguments of the program say.
ghost use Rattle.std.specs.Prelude.{◌≡◌, ◌⊎◌, IfErr, IfOk, None, OnOk, Some, map, string_bytes};
ghost use Rattle.messages.specs.Failure.{usage_of};
ghost use Rattle.messages.specs.declared.errors.Failure.TheVariants.{Memory};
ghost use Rattle.outline.specs.Options.{asks, no_wish, wishes_of, with_word, word_of};

use messages::{Failure, is_option, push_input_if_empty, push_path};
use std::alloc::{AllocError, Global};

/// The usage line of the program.
pub const USAGE: &str = "outline [--json|--ctags] [FILE..]";

/// The form in which declarations are listed.
#[derive(Clone, Copy, Debug, PartialEq, Eq)]
pub enum Form {
    /// A line for each declaration.
    Lines,
    /// A JSON object on a line for each declaration.
    Json,
    /// A `tags` file for editors.
    Ctags,
}

/// What the arguments ask the program to do.
#[derive(Drop)]
pub struct Options {
    /// The form in which declarations are listed.
    pub form: Form,
    /// The paths of the files. The path `-` is standard input.
    pub paths: Vec<String>,
}

/// The meaning of an argument.
enum ArgumentKind {
    Json,
    Ctags,
    Unknown,
    Path,
}

/// Returns what the arguments say. Options may be anywhere, and the last one counts. All other arguments are paths.
///
/// If there is no path, standard input is read. Fails with `Usage` if an argument begins with `-` and is no option, and
/// with `Memory`.
pub fn options_of(alloc: Global, words: &[String]) -> Result<Options, Failure>
    ensures ok { IfOk result (λ options. asks no_wish (map string_bytes words.now) ≡ Some (wishes_of options)) }
    ensures err { IfErr result (λ failure.
        ((usage_of failure ≡ Some USAGE.now) × (asks no_wish (map string_bytes words.now) ≡ None))
        ⊎ (failure ≡ Memory)) }
{
    let mut options = Options::new(alloc);
    for word in words {
        match word_of(word.as_str()) {
            ArgumentKind::Unknown => return Err(Failure::Usage(USAGE)),
            known => options.take(alloc, known, word.as_str())?,
        }
    }
    push_input_if_empty(alloc, &mut options.paths)?;
    Ok(options)
}

/// The meaning of an argument.
fn word_of(word: &str) -> ArgumentKind
    ensures { result ≡ word_of word.now }
{
    match word {
        "--json" => ArgumentKind::Json,
        "--ctags" => ArgumentKind::Ctags,
        _ if is_option(word) => ArgumentKind::Unknown,
        _ => ArgumentKind::Path,
    }
}

impl Options {
    /// The options before any argument is read.
    fn new(alloc: Global) -> Options
        ensures { wishes_of result ≡ no_wish }
    {
        Options {
            form: Form::Lines,
            paths: Vec::new(alloc),
        }
    }

    /// Takes one argument into account.
    fn take(&mut self, alloc: Global, known: ArgumentKind, word: &str) -> Result<(), AllocError>
        ensures { OnOk result (wishes_of self.new ≡ with_word known word.now (wishes_of self.old)) }
    {
        match known {
            ArgumentKind::Json => self.form = Form::Json,
            ArgumentKind::Ctags => self.form = Form::Ctags,
            ArgumentKind::Path => push_path(alloc, &mut self.paths, word)?,
            ArgumentKind::Unknown => {}
        }
        Ok(())
    }
}
