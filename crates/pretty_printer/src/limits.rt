//! Measures from the inside out: widths on one line, and what needs several lines. rustfmt's limits are here.
use crate::atoms::{Atom, Kind, Lexeme, Role, White};
use crate::parts::SHORT;
use crate::tree::{Form, NO_HEAD, NOWHERE, Node, Tree};

/// The largest width in characters on one line of a chain of calls, and of arguments.
pub const CALL: usize = 60;
/// The largest width of the arguments of an attribute.
const META: usize = 70;
/// The largest width of an `if` whose value is used, and of a `let` with `else`.
const BRANCHES: usize = 50;
/// The largest widths of the fields of a struct literal, and of a variant.
const FIELDS: usize = 18;

const VARIANT: usize = 35;
/// The width from which the name of a call is long: a chain as its only argument begins on the next line.
const NAME: usize = 4;

impl Tree {
    /// Ends a node before `end`, and measures it.
    pub fn finish(&mut self, index: usize, end: usize) {
        let own = self.node(index);
        let limit = match own.form {
            Form::Chain if self.node(own.child).next != own.last => CALL,
            Form::Control | Form::Let if self.previous(end).role == Role::Branch => BRANCHES,
            _ => usize::MAX,
        };
        let must = own.must || self.width(own.first, end) > limit || self.is_tall(own.first, end);
        let opens = self.head_of(own, self.node(own.last));
        let long = limit == CALL && opens > CALL;
        let head = if long { NO_HEAD } else { opens };
        if let Some(node) = self.nodes.get_mut(index) {
            node.end = end;
            node.must = must;
            node.head = head;
        }
    }

    /// Returns the width of the first line of a node with this last child, or `NO_HEAD`.
    fn head_of(&self, own: &Node, last: &Node) -> usize {
        let control = own.form == Form::Control;
        let opener = if control { self.node(own.from) } else { last };
        let first = self.atom(last.first);
        // The body of a closure begins on the line of its parameters if it is a block, or ends with one.
        let block = match last.form {
            Form::Group | Form::Plain => self.previous(last.end).is_brace(),
            Form::Control => first.is_word(Lexeme::Match) || first.is_word(Lexeme::Loop),
            form => form == Form::Closure,
        };
        let head = match own.form {
            Form::Plain | Form::Chain => last.head,
            Form::Closure if block => last.head,
            Form::Control if opener.form == Form::Group => 1,
            _ => NO_HEAD,
        };
        if own.child == NOWHERE || head == NO_HEAD || self.is_tall(own.first, opener.first) {
            return NO_HEAD;
        }
        self.distance(own.first, opener.first).saturating_add(head)
    }

    /// Sets the offset of each atom in the list on one line. All its groups are measured.
    pub fn place(&mut self, first: usize, end: usize) {
        // No space is before the first.
        let (mut offset, mut tall, mut space): (usize, usize, usize) = (0, 0, 0);
        if first <= end && end <= self.atoms.len() {
            for own in self.atoms[first..end].iter_mut() {
                own.offset = offset.saturating_add(space & own.is_spaced() as usize);
                own.tall_before = tall;
                offset = own.offset.saturating_add(own.width);
                tall = tall.wrapping_add(own.tall as usize);
                space = 1;
            }
        }
    }

    /// Reads the parts of a group, and measures it. The groups inside it are measured.
    pub fn measure_group(&mut self, group: usize) {
        let own = self.node(group);
        let (first, from, until) = (own.first, own.from, own.until);
        if from >= until {
            return;
        }
        self.place(from, until);
        let inner = self.width(from, until);
        // The parts of a short list are read when it is laid out on lines. Most short lists never are.
        if inner > SHORT || self.is_tall(from, until) {
            self.read_parts(group);
        }
        let own = self.node(group);
        let atom = self.atom(first);
        let padded = atom.is_brace() && atom.role != Role::Use && !self.is_doubled(own);
        let gap = if padded { White::Space } else { White::Nothing };
        let must = self.needs_lines(own, atom, inner);
        let long = must || inner > SHORT;
        let inside = if long { self.head_inside(own) } else { NO_HEAD };
        if let Some(atom) = self.atoms.get_mut(first) {
            atom.width = inner.saturating_add(if padded { 4 } else { 2 });
            atom.tall = must;
        }
        self.set_gap(from, gap);
        self.set_gap(until, gap);
        let head = if inside == NO_HEAD { 0 } else { inside };
        if let Some(node) = self.nodes.get_mut(group) {
            node.must = must;
            node.head = head.saturating_add(1);
        }
    }

    /// Returns whether a group is braces with only braces inside, after `=>`.
    pub fn is_doubled(&self, own: &Node) -> bool {
        let inner = self.atom(own.from);
        let only = own.until == own.from.saturating_add(1) && inner.is_full();
        only && inner.is_brace() && self.previous(own.first).role == Role::Arm
    }

    /// Returns whether a group needs several lines. `inner` is the width of its list. The parts of a long one are read.
    fn needs_lines(&self, own: &Node, atom: &Atom, inner: usize) -> bool {
        let comma = self.previous(own.until).role == Role::Comma;
        let tall = own.must || atom.role == Role::Block || self.is_tall(own.from, own.until);
        if tall || inner <= FIELDS && !comma && atom.role != Role::Use {
            return tall;
        }
        let previous = self.previous(own.first);
        let single = own.child == own.last;
        let loose = matches!(atom.role, Role::Repeated | Role::Attribute | Role::Meta)
            || previous.role == Role::Bang;
        let tuple = comma && atom.role == Role::Tuple;
        let lone = tuple && self.part_end(own.from, own.until, false) >= own.until;
        let next = self.atom(own.end);
        let sign = next.role == Role::Arm || next.is_mark('=') || next.is_mark('|');
        let pattern = sign || next.is_word(Lexeme::If) || previous.is_word(Lexeme::Let);
        let index = !atom.is_round() && previous.is_value();
        let before = self.atom(own.first.saturating_sub(2));
        let variant = next.ends && (before.ends || matches!(before.kind, Kind::Nothing));
        let limit = match atom.role {
            Role::Use if self.find_role(own.from, own.until, Role::Use) < own.until => 0,
            Role::Fields if variant => VARIANT,
            Role::Fields => FIELDS,
            Role::Meta if !single => META,
            Role::Plain | Role::Tuple if !(single || pattern || index) => CALL,
            _ => usize::MAX,
        };
        let value = self.node(own.last);
        let call = self.atom(self.node(value.last).first);
        let nested = single && value.form == Form::Plain && call.is_list() && inner > CALL;
        let plain = nested && call.role == Role::Plain && atom.role == Role::Plain;
        let opens = plain && value.head.saturating_add(2) <= CALL;
        comma && !loose && !lone || opens || inner.saturating_sub(comma as usize) > limit
    }

    /// Returns the width of the first line inside a group if its last part goes on over the next lines, or `NO_HEAD`.
    pub fn head_inside(&self, own: &Node) -> usize {
        let atom = self.atom(own.first);
        let value = self.node(own.last);
        let bang = self.previous(own.first).role == Role::Bang;
        let comma = self.previous(own.until).role == Role::Comma && !bang;
        let closed = matches!(atom.role, Role::Repeated | Role::Params | Role::Attribute);
        let open = atom.is_list() && !closed && !comma;
        if !open || self.is_tall(own.from, value.first) {
            return NO_HEAD;
        }
        let several = own.last != own.child;
        let block = value.form == Form::Group && self.atom(value.first).is_brace();
        if several && !block && value.form != Form::Closure {
            return NO_HEAD;
        }
        let tuple = atom.role == Role::Tuple && !several;
        let name = self.previous(own.first);
        let earlier = self.previous(own.first.saturating_sub(1)).role;
        let room = NAME.saturating_sub((earlier == Role::Dot) as usize);
        let short = bang || name.is_name() && name.width < room && earlier != Role::Path;
        let root = self.node(value.child);
        let long = root.must || self.node(root.next).next != NOWHERE;
        let parted = !several && short && atom.is_round();
        let chain = value.form == Form::Chain && parted;
        let first = self.atom(value.first);
        let head = match value.form {
            _ if chain && long || tuple && value.head == NO_HEAD => return 0,
            // Parentheses in parentheses break their lines themselves.
            Form::Group if tuple && first.is_round() => return 0,
            Form::Operators if parted && !bang => return 0,
            Form::Plain if parted && !bang && value.child == NOWHERE && value.must => first.width,
            _ => value.head,
        };
        let width = self.distance(own.from, value.first).saturating_add(head);
        match width <= CALL || tuple {
            true => width,
            false if chain => 0,
            false => NO_HEAD,
        }
    }
}
