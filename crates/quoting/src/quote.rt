//! The type `Quote`, which builds a stream.
ghost use Rattle.std.specs.Prelude.{◌≡◌, IfErr, IfOk, None, OnErr, OnOk};
ghost use Rattle.proc_macro2.specs.Building.{split};
ghost use Rattle.proc_macro2.specs.Forest.{chain, nil};
ghost use Rattle.proc_macro2.specs.WellSpaced.{IsWellSpaced};
ghost use Rattle.quoting.specs.Choice.{HopelessIfNamed, KeepsAllItMay};
ghost use Rattle.quoting.specs.Fault.{IsFaultOf, first_fault};
ghost use Rattle.quoting.specs.Respaced.{respace_marks};

use crate::errors::QuoteError;
use crate::faults::are_well_spaced;
use crate::laws;
use crate::respace::respace_marks;
use proc_macro2::{TokenStream, TokenTree};
use std::alloc::{AllocError, Global};
use std::marker::Model;

/// A builder that collects trees and makes a stream of them. Contracts see it as the trees that were pushed, in order.
#[derive(Drop)]
pub struct Quote {
    alloc: Global,
    pushed: TokenStream,
}

impl Model for Quote {
    ghost use Rattle.proc_macro2.specs.Codec.{coded_forest};
    ghost use Rattle.proc_macro2.specs.Forest.{Forest};

    ghost Value = { Forest };

    ghost coded = { coded_forest };

    ghost view = { λ quote. quote.pushed };
}

impl Quote {
    /// Returns a quote without trees. It allocates nothing.
    pub fn new(alloc: Global) -> Quote
        ensures { result ≡ nil }
    {
        Quote {
            alloc,
            pushed: TokenStream::new(alloc),
        }
    }

    /// Returns the allocator of the quote.
    pub(crate) fn alloc(&self) -> Global {
        self.alloc
    }

    /// Adds the tree at the end; a negative literal becomes two trees (rule `split`).
    ///
    /// Fails if memory runs out. Then the quote is unchanged, and the tree is dropped.
    ///
    /// The literal `-3i32` is added as the mark `-`, Alone, and the literal `3i32`.
    pub fn push(&mut self, tree: TokenTree) -> Result<(), AllocError>
        ensures ok { OnOk result (self.new ≡ chain self.old (split tree)) }
        ensures err { OnErr result (self.new ≡ self.old) }
    {
        self.pushed.extend_trees([tree])
    }

    /// Adds the trees of the stream at the end.
    ///
    /// Fails if memory runs out. Then the quote is unchanged.
    pub fn push_stream(&mut self, stream: TokenStream) -> Result<(), AllocError>
        ensures ok { OnOk result (self.new ≡ chain self.old stream) }
        ensures err { OnErr result (self.new ≡ self.old) }
    {
        self.pushed.extend_streams([stream])
    }

    /// Returns the stream of exactly the trees that were pushed.
    ///
    /// Groups without delimiters, spacings and spans are kept. The call allocates nothing. Use it for the result of a
    /// macro, which the compiler reads as trees. The stream need not read back from its printed text; use `finish` if
    /// it must.
    ///
    /// For `+` Joint and the identifier `a`, the result is `+` Joint and `a`.
    pub fn into_stream(self) -> TokenStream
        ensures { result ≡ self }
    {
        let Quote { pushed, .. } = self;
        pushed
    }

    /// Returns what was pushed as a stream that reads back from its printed text.
    ///
    /// Marks are respaced (rule `respaced`). Each `'` is Joint. Any other mark keeps its spacing if `well-spaced`
    /// allows it, and is Alone otherwise. The quote is unchanged. The call takes time in proportion to the number of
    /// trees, and copies no list that needs no change.
    ///
    /// Fails with `NoneGroup` or `LoneQuote` at the first such error in reading order, where a group comes before its
    /// contents. Then no choice of spacings makes what was pushed well spaced. Fails with `Memory` if memory runs out.
    ///
    /// `+` Joint before the identifier `a` would print as `+a` and read back as `+` Alone. So the result is `+` Alone
    /// and `a`.
    pub fn finish(&self) -> Result<TokenStream, QuoteError>
        ensures ok { IfOk result (λ stream. (stream ≡ respace_marks self.now) × (first_fault self.now ≡ None)) }
        ensures spaced { IfOk result IsWellSpaced }

        // A mark keeps its spacing wherever it may. So a stream that was well spaced is unchanged.
        ensures keeps { IfOk result (KeepsAllItMay self.now) }
        ensures unchanged { IfOk result (λ stream. IsWellSpaced self.now → stream ≡ self.now) }

        // An error other than `Memory` is the first one. Then no choice of spacings is well spaced.
        ensures fault { IfErr result (IsFaultOf self.now) }
        ensures hopeless { IfErr result (HopelessIfNamed self.now) }
    {
        laws::respacing();
        // A well spaced stream does not change, so its trees are shared.
        if are_well_spaced(self.alloc, self.pushed.trees())? {
            return Ok(self.pushed.clone()?);
        }
        Ok(respace_marks(self.alloc, &self.pushed)?)
    }
}
