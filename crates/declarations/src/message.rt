//! Code that makes the compiler report an error.
ghost use Rattle.std.specs.Prelude.{◌≡◌, IfOk};
ghost use Rattle.std.specs.Str.{chars};
ghost use Rattle.pm_stream.specs.Trees.{forest};
ghost use Rattle.declarations.specs.CompileError.{compile_error, span_or_call_site};
ghost use Rattle.declarations.specs.Fault.{fault_text};

use crate::fault::Fault;
use pm_span::Span;
use pm_stream::{Group, TokenStream, TokenTree};
use pm_token::parts::{ident, punct, string_literal};
use pm_token::{Delimiter, Spacing};
use std::alloc::{AllocError, Global};

impl Fault {
    /// Returns code that makes the compiler report this error: `::core::compile_error! { "expected a name" }`.
    ///
    /// The text is that of `Display`, which is "expected a name" for `struct {}`. Each tree of the code has the span of
    /// the error, or the call site if trees are missing. Fails if it runs out of memory.
    pub fn to_compile_error(&self, alloc: Global) -> Result<TokenStream, AllocError>
        ensures { IfOk result (λ stream.
            stream ≡ forest (compile_error (chars (fault_text self.now)) (span_or_call_site self.now.span))) }
    {
        let text = self.to_string(alloc)?;
        compile_error(alloc, &text, or_call_site(self.span))
    }
}

/// The span, or the call site if there is none.
fn or_call_site(span: Option<Span>) -> Span
    ensures { result ≡ span_or_call_site span }
{
    match span {
        Some(span) => span,
        None => Span::call_site(),
    }
}

/// Returns code that makes the compiler report this text: `::core::compile_error! { "text" }`.
///
/// Each tree of the code has the given span, so a macro can reject its input at the token that is wrong. Fails if it
/// runs out of memory.
pub fn compile_error(alloc: Global, text: &str, span: Span) -> Result<TokenStream, AllocError>
    ensures { IfOk result (λ stream. stream ≡ forest (compile_error (chars text.now) span)) }
{
    let core = ident(alloc, "core", false, span)?;
    let name = ident(alloc, "compile_error", false, span)?;
    let text = TokenTree::Literal(string_literal(alloc, text, span)?);
    let mut braces = Group::new(Delimiter::Brace, TokenStream::from_tree(alloc, text)?);
    braces.set_span(span);
    TokenStream::from_trees(
        alloc,
        [
            TokenTree::Punct(punct(':', Spacing::Joint, span)),
            TokenTree::Punct(punct(':', Spacing::Alone, span)),
            TokenTree::Ident(core),
            TokenTree::Punct(punct(':', Spacing::Joint, span)),
            TokenTree::Punct(punct(':', Spacing::Alone, span)),
            TokenTree::Ident(name),
            TokenTree::Punct(punct('!', Spacing::Alone, span)),
            TokenTree::Group(braces),
        ],
    )
}
