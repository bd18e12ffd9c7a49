//! Reads the trees of a list as atoms.
use crate::atoms::{Atom, Kind, Lexeme, NOTHING, Role, Sign, word_of};
use crate::tree::{Form, Tree};
use pm_span::parts::char_count;
use pm_token::parts::{is_raw, name_of};
use proc_macro2::{Ident, Punct, Spacing, TokenTree};
use std::alloc::AllocError;

/// A group whose atoms are not read yet.
#[derive(Clone, Copy)]
pub struct Unread<'a> {
    /// The index of its node.
    pub node: usize,
    pub trees: &'a [TokenTree],
    /// Whether it is inside the delimiters of a macro's call.
    pub call: bool,
}

/// Adds the atoms of these trees at the end of the atoms, and their groups at the end of the groups. After the atoms is
/// `NOTHING`, whose gap is that before the closer.
pub fn push_list<'a>(
    tree: &mut Tree,
    groups: &mut Vec<Unread<'a>>,
    trees: &'a [TokenTree],
    call: bool,
) -> Result<(), AllocError> {
    tree.atoms.reserve(trees.len().saturating_add(1))?;
    let mut left = trees;
    while let Some((first, after)) = left.split_first() {
        let atom = match first {
            TokenTree::Group(group) => {
                let own = tree.atoms.len();
                let node = tree.push_node(Form::Group, own, own.saturating_add(1));
                let trees = group.stream_ref().trees();
                groups.push(Unread { node, trees, call })?;
                let mut atom = Atom::new(Kind::Group(group.delimiter()), 2);
                atom.node = node;
                if atom.is_brace() && has_statements(trees) {
                    atom.role = Role::Block;
                }
                atom
            }
            TokenTree::Ident(ident) => ident_atom(ident),
            TokenTree::Literal(literal) => literal_atom(literal.text()),
            TokenTree::Punct(mark) => mark_atom(mark, after),
        };
        left = match atom.tokens().saturating_sub(1) {
            0 => after,
            more => after.get(more..after.len()).unwrap_or(&[]),
        };
        tree.atoms.push(atom)?;
    }
    tree.atoms.push(NOTHING)?;
    Ok(())
}

/// Returns whether `;` or `=>` is among the trees.
fn has_statements(trees: &[TokenTree]) -> bool {
    let mut equals = false;
    for tree in trees {
        if let TokenTree::Punct(mark) = tree {
            let c = mark.as_char();
            if c == ';' || equals && c == '>' {
                return true;
            }
            equals = c == '=' && mark.spacing() == Spacing::Joint;
        }
    }
    false
}

/// Returns the atom of an identifier.
#[inline(always)]
fn ident_atom(ident: &Ident) -> Atom {
    let name = name_of(ident);
    let width = char_count(name);
    match is_raw(ident) {
        true => Atom::new(Kind::Lexeme(Lexeme::Name), width.saturating_add(2)),
        false => Atom::new(Kind::Lexeme(word_of(name)), width),
    }
}

/// Returns the atom of a literal with this text. It needs several lines if its text has several.
fn literal_atom(text: &str) -> Atom {
    // A raw string begins with `r`.
    let word = match text.starts_with("\"") || text.starts_with("r") {
        true => Lexeme::String,
        false => Lexeme::Literal,
    };
    let (line, _) = text.split_once('\n').unwrap_or((text, ""));
    let mut atom = Atom::new(Kind::Lexeme(word), char_count(line));
    atom.tall = line.len() < text.len();
    atom
}

/// Returns the atom of the lifetime or the operator that begins with this mark before these trees.
fn mark_atom(mark: &Punct, after: &[TokenTree]) -> Atom {
    if let ('\'', Some(TokenTree::Ident(ident))) = (mark.as_char(), after.first()) {
        let width = ident_atom(ident).width.saturating_add(1);
        return Atom::new(Kind::Lexeme(Lexeme::Lifetime), width);
    }
    let mut atom = Atom::new(Kind::Sign(Sign::One(mark.as_char())), 1);
    atom.glued = mark.spacing() == Spacing::Joint;
    let Some((second, rest)) = next_mark(mark, after) else {
        return atom;
    };
    let sign = match (mark.as_char(), second.as_char()) {
        ('.', '.') => Sign::Range,
        (':', ':') => Sign::Path,
        ('-', '>') => Sign::Arrow,
        ('=', '>') => Sign::Arm,
        ('&', '&') => Sign::And,
        ('|', '|') => Sign::Or,
        ('=' | '!' | '<' | '>', '=') => Sign::Compare,
        ('+' | '-' | '*' | '/' | '%' | '^' | '&' | '|', '=') => Sign::Assign,
        _ => return atom,
    };
    let (last, width) = match (sign, next_mark(second, rest)) {
        (Sign::Range, Some((third, _))) if matches!(third.as_char(), '.' | '=') => (third, 3),
        _ => (second, 2),
    };
    atom.kind = Kind::Sign(sign);
    atom.width = width;
    atom.glued = last.spacing() == Spacing::Joint;
    atom
}

/// Returns the mark after this one, if an operator may go on with it, and the trees after it.
fn next_mark<'a>(mark: &Punct, after: &'a [TokenTree]) -> Option<(&'a Punct, &'a [TokenTree])> {
    match after.split_first() {
        Some((TokenTree::Punct(next), rest))
            if mark.spacing() == Spacing::Joint && next.as_char() != '\'' => Some((next, rest)),
        _ => None,
    }
}
