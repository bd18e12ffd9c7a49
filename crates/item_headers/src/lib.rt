//! Writes what a derive puts around its body: the generic parameters, the arguments and the where clause of an `impl`
//! for a struct, an enum or a union.
//!
//! Each call takes the parts of an item as [`parse_type_item`](declarations::parse_type_item) returns them. It
//! fails if they are not the parameters or predicates of an item, or if memory runs out. The item is unchanged. Trees
//! of the item and of the caller keep their spans and spacings, and groups without delimiters are kept.
//!
//! The words and marks between these trees have the span of
//! [`Span::call_site`](proc_macro2::Span::call_site). To get a stream that reads back from its printed text,
//! push the result to a `Quote` and call its `finish`.
#![tactic(auto)]

mod clauses;
mod errors;
mod header;
pub mod laws;
mod lists;
mod params;

pub use clauses::{where_clause, where_clause_with, where_clause_with_bound};
pub use errors::HeaderError;
pub use header::{impl_header, impl_header_where};
pub use params::{impl_generics, turbofish, type_generics};
