//! The laws of headers. The functions compute nothing: their contracts are the laws.

ghost use Rattle.item_headers.specs.Laws.{BoundedClauseReads, ClauseReads, HeaderReads, HeaderWithClauseReads};

/// What [`impl_header`](crate::impl_header) writes, followed by a body in braces, is read as one `impl`.
///
/// For `struct S<T: A = B> where T: C;` and the trait `D`, the header and the body are
/// `impl<T: A> D for S<T> where T: C { .. }`. From these trees [`parse_impl`](declarations::parse_impl) returns
/// the generic parameters `<T: A>`, the trait `D`, the type `S<T>`, the where clause `where T: C` and the body. The
/// other parts are empty, and there is no other reading.
///
/// The trees of the item must come from a stream, as
/// [`TokenStream::trees`](proc_macro2::TokenStream::trees) returns them. Then no literal has a `-` in it, which
/// would be written as a tree of its own. The trees of the trait must be read as a type before `for`, which `'a` and
/// `A +` are not. They must not begin with `!`. If the item has no parameters, they must not begin as generic
/// parameters do, as `<T>::A` does.
pub fn header_reads()
    ensures { HeaderReads }
{}

/// What [`impl_header_where`](crate::impl_header_where) writes, followed by a body in braces, is read as
/// one `impl`, if the where clause is read before the body.
///
/// The other conditions are those of [`header_reads`]. By [`where_clauses_read`] the where clauses of two calls are
/// read before each body.
pub fn header_with_clause_reads()
    ensures { HeaderWithClauseReads }
{}

/// What [`where_clause`](crate::where_clause) and
/// [`where_clause_with_bound`](crate::where_clause_with_bound) write is read as a where clause
/// before a body.
///
/// The body is in braces. The trees of the item must come from a stream. The trees of the bound must be bounds, as
/// `A<T> + 'a` are.
pub fn where_clauses_read()
    ensures item { ClauseReads }
    ensures bounded { BoundedClauseReads }
{}
