//! Writes the bytes of a C string.
ghost use Rattle.std.specs.Prelude.{◌≡◌, ◌≢◌, ◌++◌, List, [], IfOk, IsTrue, OnOk};
ghost use Rattle.pm_token.specs.CString.{AreParts, Part, WritesFront, has_no_zero, parts_text};

use crate::escapes::TextBuilder;
use std::alloc::AllocError;

impl TextBuilder {
    /// Writes the bytes, none of which is zero (`c-string-parts`).
    pub(crate) fn push_c_string(&mut self, bytes: &[u8]) -> Result<(), AllocError>
        requires { IsTrue (has_no_zero bytes.now) }
        ensures ok { OnOk result ((parts : List Part) × AreParts parts bytes.now
            × (self.new ≡ self.old ++ parts_text parts)) }
    {
        let mut left = bytes;
        while !left.is_empty() {
            left = self.push_front(left)?;
        }
        Ok(())
    }

    /// Writes the text that the bytes begin with, and the byte after it, which begins no character. It returns
    /// the bytes after that byte.
    fn push_front<'a>(&mut self, bytes: &'a [u8]) -> Result<&'a [u8], AllocError>
        requires nonzero { IsTrue (has_no_zero bytes.now) }
        requires some { bytes.now ≢ [] }
        ensures ok { IfOk result (λ rest. WritesFront bytes.now rest.now self.old self.new) }
        ensures nonzero { IfOk result (λ rest. IsTrue (has_no_zero rest.now)) }
    {
        let Some(chunk) = bytes.utf8_chunks().next() else {
            return Ok(&[]);
        };
        let text = chunk.valid();
        self.push_content('"', text)?;
        match bytes[text.len()..].split_first() {
            Some((&byte, rest)) => {
                self.push_hex(byte)?;
                Ok(rest)
            }
            None => Ok(&[]),
        }
    }
}
