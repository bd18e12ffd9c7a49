//! Pairs angles, gives operators their roles, and chooses the spaces of a line.
use crate::atoms::{Atom, Kind, Lexeme, Role, Sign};
use crate::roles::{Head, State, is_item};
use crate::tree::{Tree, push_item};

/// Pairs the `<` at this index and those after it with the `>` that end types.
pub fn pair_angles(tree: &mut Tree, index: usize, end: usize) {
    tree.angles.clear();
    for later in index..end {
        let next = tree.atom(later);
        if next.is_mark('<') {
            push_item(&mut tree.angles, later, &mut tree.failure);
            tree.set_role(later, Role::Between, 0);
        } else if next.is_mark('>') {
            let less = tree.angles.pop().unwrap_or(0);
            tree.set_role(later, Role::Greater, less);
            tree.set_role(less, Role::Less, later);
        } else if ends_types(next, tree.previous(later)) {
            break;
        }
        if tree.angles.is_empty() {
            break;
        }
    }
}

/// Returns whether no type goes on with the atom after this one.
fn ends_types(atom: &Atom, previous: &Atom) -> bool {
    let begins = matches!(previous.kind, Kind::Sign(Sign::One('<' | ',' | '=')));
    match atom.kind {
        Kind::Lexeme(Lexeme::String) => !previous.is_word(Lexeme::Extern),
        Kind::Lexeme(Lexeme::If | Lexeme::Let | Lexeme::Match | Lexeme::Else) => true,
        Kind::Lexeme(_) | Kind::Sign(Sign::Path | Sign::Arrow) => false,
        // Braces and numbers may be arguments, as in `f::<{ N }, -1>()`.
        Kind::Group(_) => atom.is_brace() && !begins,
        Kind::Sign(Sign::One('-')) => !begins,
        Kind::Sign(Sign::One(',' | '&' | ':' | '=' | '+' | '?' | '*' | '!')) => false,
        Kind::Sign(Sign::One('$' | '#' | '\'')) => false,
        _ => true,
    }
}

impl State {
    /// Returns the role of an operator at this index. The role that it has already is that of an angle.
    pub fn sign_role(&mut self, tree: &Tree, index: usize, sign: Sign, own: &Atom) -> Role {
        let previous = tree.previous(index);
        let listed = self.depth > 0 || self.in_bars || is_item(self.head);
        self.ends = own.is_mark(';') || own.is_mark(',') && !listed;
        if self.ends || matches!(sign, Sign::Arm) {
            self.head = Head::Nothing;
        }
        if previous.role == Role::Repeated || previous.role == Role::Separator {
            match sign {
                Sign::One('*' | '+' | '?') => return Role::After,
                Sign::One(',' | ';' | '|') => return Role::Separator,
                _ => {}
            }
        }
        let begins = index == self.start;
        let value = previous.is_value() && !(begins && previous.is_brace());
        match sign {
            Sign::One('!') => bang_role(previous, tree.next(index), value),
            Sign::One('|') if begins && begins_arm(tree, index) => Role::Between,
            Sign::One('|') | Sign::Or => self.bar_role(own, value && !ends_binder(tree, previous)),
            // For example `a ?= b` in a macro.
            Sign::One('?') if own.glued && tree.next(index).is_mark('=') => Role::Between,
            _ if own.role != Role::Plain => own.role,
            _ => plain_role(sign, value),
        }
    }

    /// Returns the role of `|` or `||`.
    fn bar_role(&mut self, own: &Atom, value: bool) -> Role {
        let single = own.is_mark('|');
        let found = match value {
            _ if single && self.in_bars || !single && !value => Role::BarClose,
            true => Role::Between,
            false => Role::BarOpen,
        };
        self.in_bars = found == Role::BarOpen;
        found
    }
}

/// Returns whether the atom ends the lifetimes of a closure, such as `for<'a>`.
fn ends_binder(tree: &Tree, previous: &Atom) -> bool {
    previous.role == Role::Greater && tree.previous(previous.node).is_word(Lexeme::For)
}

/// Returns whether the pattern of an arm begins with this atom, which begins a statement or an arm.
fn begins_arm(tree: &Tree, index: usize) -> bool {
    for at in index..usize::MAX {
        match tree.next(at).kind {
            Kind::Sign(Sign::Arm) => return true,
            Kind::Sign(Sign::One(',' | ';')) | Kind::Nothing => return false,
            _ => {}
        }
    }
    false
}

/// Returns the role of `!`.
fn bang_role(previous: &Atom, next: &Atom, value: bool) -> Role {
    let called = previous.is_any_word() && value && !next.is_sign();
    match previous.kind {
        _ if previous.is_mark('#') => Role::Hash,
        _ if called || previous.is_word(Lexeme::MacroRules) => Role::Bang,
        // It is a type.
        Kind::Sign(Sign::Arrow) => Role::Plain,
        _ => Role::Before,
    }
}

/// Returns the role of any other operator.
fn plain_role(sign: Sign, value: bool) -> Role {
    let side = if value { Role::Between } else { Role::Before };
    match sign {
        Sign::Path => Role::Path,
        Sign::Range => Role::Range,
        Sign::Arm => Role::Arm,
        Sign::One(':') => Role::Colon,
        Sign::One(',') => Role::Comma,
        Sign::One(';') => Role::Semicolon,
        Sign::One('.') => Role::Dot,
        Sign::One('#') => Role::Hash,
        Sign::One('$' | '~') => Role::Before,
        Sign::One('?') if value => Role::After,
        Sign::And | Sign::One('-' | '*' | '&' | '@' | '?') => side,
        _ => Role::Between,
    }
}

/// Returns whether a space should be before the atom `next` at this index, which gets this role. The gap before the
/// first atom of a list is chosen when the list is measured.
#[inline(always)]
pub fn wants_space(tree: &Tree, index: usize, previous: &Atom, next: &Atom, role: Role) -> bool {
    if previous.glued || next.is_sign() && is_close(role, next) {
        return false;
    }
    if previous.is_sign() && previous.role != Role::Greater && previous.role != Role::After {
        return is_wide(tree, index, previous, next);
    }
    if next.is_sign() && matches!(role, Role::Path | Role::Range | Role::Less) {
        let opens = matches!(
            previous.kind,
            Kind::Lexeme(Lexeme::Impl | Lexeme::For | Lexeme::Fn)
        );
        let keyword = previous.is_any_word() && !previous.is_name();
        // For example `impl<T> ::a::B for C<T>` and `for<'a> ::a::B<'a>`.
        let generic = previous.role == Role::Greater && role == Role::Path;
        let before = tree.previous(previous.node);
        let bound = generic && matches!(before.kind, Kind::Lexeme(Lexeme::Impl | Lexeme::For));
        return bound || keyword && !(opens && role == Role::Less);
    }
    if !next.is_list() {
        return true;
    }
    match previous.kind {
        Kind::Lexeme(Lexeme::Pub) => !next.is_round(),
        Kind::Lexeme(Lexeme::Fn | Lexeme::MacroRules) => false,
        Kind::Lexeme(Lexeme::Lifetime) => true,
        Kind::Lexeme(_) => !previous.is_name(),
        _ => previous.is_brace() || previous.role == Role::Attribute,
    }
}

/// Returns whether an operator with this role touches what is before it.
fn is_close(role: Role, own: &Atom) -> bool {
    let ends = matches!(role, Role::Comma | Role::Semicolon | Role::Separator);
    let touches = matches!(role, Role::Dot | Role::Greater | Role::Bang | Role::After);
    ends || touches || role == Role::Colon || role == Role::BarClose && own.is_mark('|')
}

/// Returns whether a space follows an operator.
fn is_wide(tree: &Tree, index: usize, previous: &Atom, next: &Atom) -> bool {
    let dollar = tree.atom(index.wrapping_sub(3));
    match previous.role {
        Role::Colon if next.is_word(Lexeme::Fragment) => !dollar.is_mark('$'),
        Role::Bang => !next.is_list(),
        Role::Plain | Role::Between | Role::Arm | Role::BarClose | Role::Colon => true,
        role => role == Role::Comma || role == Role::Semicolon,
    }
}
