//! The words and the input of a program.
ghost use Rattle.std.specs.Prelude.{◌≡◌, ◌↔◌, ◌++◌, [], ◌∷◌, Err, IfErr, IfOk, IfSome, IsTrue, IsFalse, Ok, Some};
ghost use Rattle.std.specs.Prelude.{OnErr, OnOk, map, option_map, string_bytes};
ghost use Rattle.std.specs.IoError.{error_kind};
ghost use Rattle.messages.specs.Input.{IsTextOf};
ghost use Rattle.messages.specs.Words.{is_no_text, is_option, or_dash, path_of, words_of};

use crate::errors::Failure;
use std::alloc::{AllocError, Global};
use std::env::Args;
use std::fs::File;
use std::io;
use std::io::Read;

/// Returns the words after the program's name, which is the first of its arguments.
///
/// Fails with `Usage` if the arguments are not UTF-8, and with `Memory` if memory runs out, or if the arguments can't
/// be read for any other reason.
pub fn words(
    alloc: Global,
    arguments: io::Result<Args>,
    usage: &'static str,
) -> Result<Vec<String>, Failure>
    ensures ok { IfOk result (λ list. IfOk arguments (λ given. map string_bytes list.items ≡ words_of given)) }
    ensures refused { IfErr arguments (λ error.
        (result ≡ Err (Failure.Usage usage.entry)) ↔ IsTrue (is_no_text (error_kind error))) }
{
    match arguments {
        Ok(arguments) => Ok(arguments.skip(1).collect(alloc)?),
        Err(error) if is_no_text(error.kind()) => Err(Failure::Usage(usage)),
        Err(_) => Err(Failure::Memory),
    }
}

/// Whether the error is that the arguments are not UTF-8.
fn is_no_text(kind: io::ErrorKind) -> bool
    ensures { result ≡ is_no_text kind }
{
    matches!(kind, io::ErrorKind::InvalidData)
}

/// Returns the path that the words name: the only word, or `-` if there is none. Fails with `Usage` exactly if there
/// are several words, and with `Memory` if memory runs out.
pub fn path(alloc: Global, words: &[String], usage: &'static str) -> Result<String, Failure>
    ensures ok { IfOk result (λ path. path_of (map string_bytes words.now) ≡ Some (string_bytes path)) }
    ensures usage { (result ≡ Err (Failure.Usage usage.entry)) ↔ (path_of (map string_bytes words.now) ≡ None) }
{
    match words {
        [] => Ok(String::from_str(alloc, "-")?),
        [path] => Ok(path.clone()?),
        _ => Err(Failure::Usage(usage)),
    }
}

/// Adds a path after those that a program reads. Fails if memory runs out.
pub fn push_path(alloc: Global, paths: &mut Vec<String>, path: &str) -> Result<(), AllocError>
    ensures { OnOk result (map string_bytes paths.new.items ≡ map string_bytes paths.old.items ++ (path.now ∷ [])) }
{
    paths.push(String::from_str(alloc, path)?)?;
    Ok(())
}

/// Adds the path `-`, which is standard input, if a program has no path to read. Fails if memory runs out.
pub fn push_input_if_empty(alloc: Global, paths: &mut Vec<String>) -> Result<(), AllocError>
    ensures { OnOk result (map string_bytes paths.new.items ≡ or_dash (map string_bytes paths.old.items)) }
{
    if paths.is_empty() {
        push_path(alloc, paths, "-")?;
    }
    Ok(())
}

/// Whether the word is an option, known or not: whether it begins with `-` and is not `-` alone.
pub fn is_option(word: &str) -> bool
    ensures { result ≡ is_option word.now }
{
    match word.as_bytes() {
        [b'-'] => false,
        [b'-', ..] => true,
        _ => false,
    }
}

/// Returns the text of the file at this path, or of standard input if the path is `-`.
///
/// Fails with `Read` if the file can't be opened or read, with `NotUtf8` if it is not UTF-8, and with `Memory` if
/// memory runs out.
pub fn read_text(rt: &HostRuntime, path: &str) -> Result<String, Failure> {
    if path == "-" {
        return text_of(rt.alloc(), rt.stdin());
    }
    match File::open(rt, path) {
        Ok(file) => text_of(rt.alloc(), file),
        Err(error) => Err(Failure::reading(error)),
    }
}

/// Returns all that is left in the reader, as a text.
fn text_of<R: Read + Drop>(alloc: Global, mut reader: R) -> Result<String, Failure>
    ensures { IfSome (R.remaining reader) (λ bytes. IsTextOf bytes result) }
{
    let mut bytes = Vec::new(alloc);
    match reader.read_to_end(&mut bytes) {
        Ok(_) => decode(bytes),
        Err(error) => Err(Failure::reading(error)),
    }
}

/// Returns the bytes as a text.
fn decode(bytes: Vec<u8>) -> Result<String, Failure>
    ensures { IsTextOf bytes.items result }
{
    match String::from_utf8(bytes) {
        Ok(text) => Ok(text),
        Err(error) => Err(Failure::NotUtf8(error.utf8_error().valid_up_to())),
    }
}
