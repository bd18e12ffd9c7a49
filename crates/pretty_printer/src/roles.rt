//! Gives words and groups their roles.
use crate::atoms::{Atom, Kind, Lexeme, Role, Sign, White};
use crate::signs::{pair_angles, wants_space};
use crate::tree::{NOWHERE, Tree};

/// Gives the atoms in `first..end` their roles, and the gaps before them on one line. They are the list of a group with
/// the role `inside`, in braces if `block`.
pub fn assign_roles(tree: &mut Tree, first: usize, end: usize, block: bool, inside: Role) {
    let mut state = State {
        start: if block { first } else { NOWHERE },
        in_bars: false,
        head: Head::Nothing,
        last: Head::Nothing,
        ends: false,
        depth: 0,
        inside,
    };
    for index in first..end {
        let own = tree.atom(index);
        if own.is_mark('<') && own.role == Role::Plain {
            pair_angles(tree, index, end);
        }
        state.take(tree, index);
    }
}

/// What the next braces belong to.
#[derive(Clone, Copy, PartialEq)]
pub enum Head {
    Nothing,
    Fn,
    Impl,
    /// Any other item.
    Item,
    /// An `if` whose value is used, and its `else`.
    Branch,
    /// `if`, `else`, `for`, `while`, `loop` or `match`.
    Other,
}

/// What is known of the list before the next atom.
#[derive(Clone, Copy)]
pub struct State {
    /// The index of the first atom of the statement or the arm. In a list that is not in braces: `NOWHERE`.
    pub start: usize,
    /// Whether the atoms are the parameters of a closure.
    pub in_bars: bool,
    pub head: Head,
    /// The head of the last braces.
    pub last: Head,
    /// Whether a statement, an item or an arm ends with the atom.
    pub ends: bool,
    /// The number of open `<`.
    pub depth: usize,
    /// The role of the list's group.
    pub inside: Role,
}

impl State {
    /// Gives the atom at this index its role, and the gap before it on one line.
    #[inline(always)]
    fn take(&mut self, tree: &mut Tree, index: usize) {
        let own = tree.atom(index);
        let previous = tree.previous(index);
        let (mut role, mut tall) = (own.role, own.tall);
        self.ends = false;
        match own.kind {
            Kind::Lexeme(word) => {
                if let Some(head) = head_of(word) {
                    self.take_head(word, head, previous, tree.next(index));
                } else if word == Lexeme::Where && is_item(self.head) {
                    role = Role::Where;
                    tall = self.head != Head::Impl;
                }
            }
            Kind::Group(_) => role = self.group_role(tree, index, own),
            Kind::Sign(sign) => {
                match role {
                    Role::Less => self.depth = self.depth.saturating_add(1),
                    Role::Greater => self.depth = self.depth.saturating_sub(1),
                    _ => {}
                }
                role = self.sign_role(tree, index, sign, own);
            }
            Kind::Nothing => {}
        }
        let spaced = wants_space(tree, index, previous, own, role);
        if self.start < NOWHERE && (self.ends || role == Role::Arm) {
            self.start = index.saturating_add(1);
        }
        self.ends = self.ends && self.start < NOWHERE && !own.glued;
        if let Some(changed) = tree.atoms.get_mut(index) {
            changed.role = role;
            changed.ends = self.ends;
            changed.tall = tall;
            changed.gap = if spaced { White::Space } else { White::Nothing };
        }
    }

    /// Returns the role of a group.
    fn group_role(&mut self, tree: &Tree, index: usize, own: &Atom) -> Role {
        let previous = tree.previous(index);
        let next = tree.next(index);
        let passed = index.saturating_sub(self.start);
        if !own.is_brace() {
            let role = self.list_role(own, previous, tree.previous(index.saturating_sub(1)));
            self.ends = role == Role::Attribute && passed < 3;
            return role;
        }
        let item = is_item(self.head);
        let role = self.brace_role(own, previous, next);
        let value = awaits_operand(previous) && !(passed == 1 && previous.is_word(Lexeme::Prefix));
        let goes_on = match next.kind {
            Kind::Lexeme(word) => word == Lexeme::Else,
            Kind::Sign(sign) => matches!(sign, Sign::Arm | Sign::One(';' | ',' | '.' | '?')),
            _ => false,
        };
        let second = tree.next(self.start);
        let statement = match tree.atom(self.start).kind {
            Kind::Group(_) => passed == 0,
            Kind::Lexeme(Lexeme::Lifetime) => true,
            // For example `unsafe` and `async move`.
            Kind::Lexeme(Lexeme::Prefix) => passed < 3,
            Kind::Lexeme(Lexeme::Name | Lexeme::Derive | Lexeme::MacroRules) => {
                // For example `m! {}` and `union U {}`.
                matches!(second.role, Role::Bang | Role::Path) || second.is_any_word()
            }
            Kind::Lexeme(word) => head_of(word).is_some(),
            // For example `::a::m! {}`, and `$a::m! {}` in a macro.
            Kind::Sign(Sign::Path | Sign::One('$' | '#')) => previous.role == Role::Bang,
            _ => false,
        };
        let braces = role == Role::Block || role == Role::Expression || second.is_any_word();
        let ends = braces && !goes_on && !value && self.head != Head::Other;
        self.ends = ends && self.depth == 0 && (item || statement);
        role
    }

    /// Takes the head that begins with this word.
    fn take_head(&mut self, word: Lexeme, head: Head, previous: &Atom, next: &Atom) {
        let bounds = word == Lexeme::For && (self.head == Head::Impl || next.is_mark('<'));
        let inner = is_item(head) && (next.is_group() || self.head == Head::Fn);
        if bounds || inner {
            return;
        }
        let sign = previous.is_sign() && !matches!(previous.role, Role::Greater | Role::Semicolon);
        let begins = matches!(previous.kind, Kind::Nothing) && self.start == NOWHERE;
        let is_value = sign || begins || previous.is_word(Lexeme::Return);
        self.head = match word {
            Lexeme::If if previous.is_word(Lexeme::Else) => self.last,
            Lexeme::If if is_value => Head::Branch,
            Lexeme::Else if self.last == Head::Branch || !previous.is_brace() => Head::Branch,
            _ => head,
        };
    }

    /// Returns the role of braces.
    fn brace_role(&mut self, own: &Atom, previous: &Atom, next: &Atom) -> Role {
        if previous.role == Role::Path {
            return Role::Use;
        }
        let sign = matches!(next.kind, Kind::Sign(Sign::One('=' | '|' | ':')));
        let goes_on = sign || next.is_word(Lexeme::In) || awaits_operand(previous);
        let body = is_item(self.head) || self.head != Head::Nothing && !goes_on;
        if body && self.depth == 0 {
            self.last = self.head;
            self.head = Head::Nothing;
        }
        match previous.role {
            // It is an argument of a type.
            _ if self.depth > 0 => Role::Expression,
            _ if own.role == Role::Block => Role::Block,
            _ if body && self.last == Head::Branch => Role::Branch,
            _ if body => Role::Block,
            Role::Attribute | Role::Arm | Role::Bang | Role::BarClose => Role::Block,
            Role::Greater => Role::Fields,
            _ if previous.is_name() => Role::Fields,
            _ => Role::Expression,
        }
    }

    /// Returns the role of a group that is not in braces.
    fn list_role(&self, own: &Atom, previous: &Atom, earlier: &Atom) -> Role {
        let named = previous.is_any_word() && earlier.is_word(Lexeme::Fn);
        match own.is_round() {
            _ if previous.is_mark('$') => Role::Repeated,
            false if previous.role == Role::Hash => Role::Attribute,
            false => Role::Plain,
            _ if self.head == Head::Fn && (named || previous.role == Role::Greater) => Role::Params,
            _ if self.inside == Role::Attribute && previous.is_word(Lexeme::Derive) =>
                Role::Repeated,
            _ if matches!(self.inside, Role::Attribute | Role::Meta) => Role::Meta,
            _ if previous.is_value() && !previous.ends || previous.role == Role::Bang =>
                Role::Plain,
            _ => Role::Tuple,
        }
    }
}

/// Returns whether it is the head of an item.
pub fn is_item(head: Head) -> bool {
    matches!(head, Head::Fn | Head::Impl | Head::Item)
}

/// Returns the kind of item or expression that begins with the word.
fn head_of(word: Lexeme) -> Option<Head> {
    match word {
        Lexeme::Fn => Some(Head::Fn),
        Lexeme::Impl => Some(Head::Impl),
        Lexeme::Item | Lexeme::Extern => Some(Head::Item),
        Lexeme::For | Lexeme::While | Lexeme::Loop => Some(Head::Other),
        Lexeme::Match | Lexeme::If | Lexeme::Else => Some(Head::Other),
        _ => None,
    }
}

/// Returns whether braces after the atom are an operand and not a body.
pub fn awaits_operand(previous: &Atom) -> bool {
    match previous.kind {
        Kind::Lexeme(Lexeme::If | Lexeme::While | Lexeme::Match) => true,
        Kind::Lexeme(Lexeme::In | Lexeme::Prefix) => true,
        _ => previous.role == Role::Between,
    }
}
