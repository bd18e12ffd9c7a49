//! Reads the trees that are no groups from the lines of a list of trees.
use proc_macro2::{
    Ident, IdentError, Literal, ParseError, Punct, SourceMap, Spacing, Span, TokenTree,
};
use std::alloc::{AllocError, Global};

/// Returns the tree that the line describes, or `None` if it describes none.
///
/// `raw fn` is the identifier `r#fn`, and `integer -3i32` the literal `-3i32`.
pub fn leaf(alloc: Global, line: &str) -> Result<Option<TokenTree>, ParseError> {
    let Some((word, text)) = line.split_once(' ') else {
        return Ok(None);
    };
    match word {
        "ident" => identifier(Ident::new(alloc, text, Span::call_site())),
        "raw" => identifier(Ident::new_raw(alloc, text, Span::call_site())),
        "alone" => Ok(mark(text, Spacing::Alone)),
        "joint" => Ok(mark(text, Spacing::Joint)),
        "literal" => literal(alloc, text),
        "integer" => integer(alloc, text),
        _ => Ok(None),
    }
}

/// Returns the identifier, or `None` if the name is wrong.
fn identifier(ident: Result<Ident, IdentError>) -> Result<Option<TokenTree>, ParseError> {
    match ident {
        Ok(ident) => Ok(Some(TokenTree::Ident(ident))),
        Err(IdentError::Memory(error)) => Err(ParseError::Memory(error)),
        Err(_) => Ok(None),
    }
}

/// Returns the mark that is the only character of the text.
fn mark(text: &str, spacing: Spacing) -> Option<TokenTree> {
    let mut chars = text.chars();
    let (Some(mark), None) = (chars.next(), chars.next()) else {
        return None;
    };
    if !Punct::is_punct_char(mark) {
        return None;
    }
    Some(TokenTree::Punct(Punct::new(mark, spacing)))
}

/// Returns the literal that the text is.
fn literal(alloc: Global, text: &str) -> Result<Option<TokenTree>, ParseError> {
    match Literal::from_str(text, &mut SourceMap::new(alloc)) {
        Ok(literal) => Ok(Some(TokenTree::Literal(literal))),
        Err(ParseError::Lex(_)) => Ok(None),
        Err(error) => Err(error),
    }
}

/// Returns the literal that the constructor of the suffix makes of the number before it.
fn integer(alloc: Global, text: &str) -> Result<Option<TokenTree>, ParseError> {
    let (number, suffix) = match text.find('i') {
        Some(at) => text.split_at(at),
        None => (text, ""),
    };
    let Ok(number) = number.parse::<i8>() else {
        return Ok(None);
    };
    match suffixed_literal(alloc, number, suffix) {
        Some(literal) => Ok(Some(TokenTree::Literal(literal?))),
        None => Ok(None),
    }
}

/// Returns the literal that the constructor of the suffix makes of the number, or `None` if there is no such suffix.
fn suffixed_literal(
    alloc: Global,
    number: i8,
    suffix: &str,
) -> Option<Result<Literal, AllocError>> {
    match suffix {
        "" => Some(Literal::i8_unsuffixed(alloc, number)),
        "i8" => Some(Literal::i8_suffixed(alloc, number)),
        "i16" => Some(Literal::i16_suffixed(alloc, i16::from(number))),
        "i32" => Some(Literal::i32_suffixed(alloc, i32::from(number))),
        "i64" => Some(Literal::i64_suffixed(alloc, i64::from(number))),
        "i128" => Some(Literal::i128_suffixed(alloc, i128::from(number))),
        "isize" => Some(Literal::isize_suffixed(alloc, isize::from(number))),
        _ => None,
    }
}
