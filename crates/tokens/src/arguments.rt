//! The words of the command line.
ghost use Rattle.std.specs.Prelude.{◌≡◌, ◌↔◌, Err, IfErr, IfOk, IsFalse, Ok, alloc_error, map, string_bytes};
ghost use Rattle.std.specs.IoError.{error_kind};
ghost use Rattle.tokens.specs.Arguments.{is_no_text, words};

use std::alloc::{AllocError, Global};
use std::env::Args;
use std::io;

/// Returns the words after the program's name, which is the first of its arguments.
///
/// There are no words if an argument isn't text. Returns an error if memory runs out for the list, or if the arguments
/// could not be had for another reason, which counts as running out of memory.
pub fn words(alloc: Global, arguments: io::Result<Args>) -> Result<Vec<String>, AllocError>
    ensures ok { IfOk result (λ list. words arguments ≡ Ok (map string_bytes list.items)) }
    ensures refused { IfErr arguments (λ error.
        (result ≡ Err alloc_error) ↔ IsFalse (is_no_text (error_kind error))) }
{
    match arguments {
        Ok(arguments) => arguments.skip(1).collect(alloc),
        Err(error) if is_no_text(error.kind()) => Ok(Vec::new(alloc)),
        Err(_) => Err(AllocError),
    }
}

/// Whether the reason why there are no arguments is that one of them isn't text.
fn is_no_text(kind: io::ErrorKind) -> bool
    ensures { result ≡ is_no_text kind }
{
    matches!(kind, io::ErrorKind::InvalidData)
}

#[cfg(test)]
mod tests {
    use super::*;
    use std::process::Abort;
    use std::test::Fail;

    /// Returns how many words the arguments have.
    fn count(alloc: Global, arguments: io::Result<Args>) -> Option<usize> {
        match words(alloc, arguments) {
            Ok(words) => Some(words.len()),
            Err(_) => None,
        }
    }

    /// Returns the texts as arguments.
    fn arguments(alloc: Global, texts: &[&str]) -> Result<Args, AllocError> {
        let mut arguments = Vec::new(alloc);
        for text in texts {
            arguments.push(String::from_str(alloc, text)?)?;
        }
        Ok(arguments.into_iter())
    }

    #[test]
    fn the_name_of_the_program_is_no_word(rt: HostRuntime) -> Result<(), Fail> {
        let none = arguments(rt.alloc(), &[])?;
        assert_eq!(rt; count(rt.alloc(), Ok(none)), Some(0));
        let two = arguments(rt.alloc(), &["tokens", "print"])?;
        let words = words(rt.alloc(), Ok(two))?;
        assert_eq!(rt; words.len(), 1);
        assert_eq!(rt; words[0].as_str(), "print");
        Ok(())
    }

    /// Asserts how many words there are if the arguments could not be had for this reason.
    fn check_kind(rt: &(impl Abort + AllocGlobal), kind: io::ErrorKind, want: Option<usize>) {
        let had = count(rt.alloc(), Err(io::Error::from(kind)));
        assert_eq!(rt; had, want, "at {kind:?}");
    }

    #[test]
    fn arguments_that_are_no_text_are_no_words(rt: HostRuntime) {
        check_kind(&rt, io::ErrorKind::InvalidData, Some(0));
        check_kind(&rt, io::ErrorKind::OutOfMemory, None);
        check_kind(&rt, io::ErrorKind::Other, None);
    }
}
