//! Reads expressions, patterns and types as trees. Each operator takes the operands that bind more strongly.
use crate::atoms::{Atom, Kind, Lexeme, Role, Sign};
use crate::parts::SHORT;
use crate::roles::awaits_operand;
use crate::tree::{Form, NOWHERE, Tree, push_item};

/// The strengths with which nodes take their operands. Nothing but the end of a part ends an arm.
const ARM: usize = 0;
/// Of `if`, `match` and loops.
const CONTROL: usize = 1;
/// Of closures, `let` and `return`.
const WEAKEST: usize = 2;
/// Of `=` and operators such as `+=`.
const ASSIGN: usize = 3;
/// Of `..` and its kin.
const RANGE: usize = 4;
/// Of `&&`.
const AND: usize = 6;
/// Of `as`.
const CAST: usize = 14;
/// Of what is before its only operand.
const BEFORE: usize = 15;

impl Tree {
    /// Reads these atoms, of which there is at least one, and returns their node.
    pub fn read_expression(&mut self, first: usize, end: usize) -> usize {
        // A label, or the name of a field, is before what is read.
        let named = self.next(first).role == Role::Colon;
        let mut at = first.saturating_add(if named { 2 } else { 0 });
        for _ in first..end {
            if at >= end {
                break;
            }
            let own = *self.atom(at);
            let from = at;
            at = if own.role == Role::Less { own.node } else { at }.saturating_add(1);
            match own.role {
                Role::Less => self.take_angles(from, at.min(end)),
                Role::Greater => self.go_on(from, &own),
                _ if self.reader.operand == NOWHERE => self.begin(from, &own),
                _ => self.take_next(from, &own),
            }
        }
        self.reduce(ARM, end);
        let node = self.take_operand(end);
        if self.node(node).first == first {
            return node;
        }
        // The part is not valid Rust.
        let all = self.push_node(Form::Plain, first, end);
        self.append(all, node);
        self.finish(all, end);
        all
    }

    /// Adds the atom to the operand, or begins an operand with it.
    fn go_on(&mut self, index: usize, own: &Atom) {
        if self.reader.operand == NOWHERE {
            self.reader.operand = self.push_node(Form::Plain, index, index);
        }
        if own.is_full() {
            self.append(self.reader.operand, own.node);
        }
    }

    /// Adds angles around types to the operand, or begins an operand with them. Long ones may need several lines.
    fn take_angles(&mut self, first: usize, end: usize) {
        let own = *self.atom(first);
        self.go_on(first, &own);
        if self.width(first, end) > SHORT || self.is_tall(first, end) {
            let angles = self.push_list_node(Form::Group, first, end, false);
            self.append(self.reader.operand, angles);
        }
    }

    /// Begins an operand, or a node that takes one.
    fn begin(&mut self, index: usize, own: &Atom) {
        let previous = *self.previous(index);
        let next = *self.next(index);
        let closure = next.role == Role::BarOpen || next.role == Role::BarClose;
        let opens = own.role == Role::BarOpen || own.role == Role::BarClose && !own.is_mark('|');
        // It is the rest of an operator such as `>>`, or the `|` after `move`.
        let passed = own.role == Role::Between && previous.glued
            || opens && previous.is_word(Lexeme::Prefix);
        let body = own.is_body() && self.top().1 == CONTROL && !awaits_operand(&previous);
        match own.kind {
            _ if passed || own.role == Role::BarClose && !opens || own.is_word(Lexeme::Else) => {}
            _ if opens => self.open(Form::Closure, index, WEAKEST),
            _ if body => self.take_block(index, own),
            Kind::Sign(_) if own.role == Role::Before => self.open(Form::Plain, index, BEFORE),
            Kind::Sign(_) if own.role == Role::Range => self.open(Form::Plain, index, RANGE),
            Kind::Lexeme(Lexeme::If) if previous.is_word(Lexeme::Else) => {}
            Kind::Lexeme(Lexeme::For) if next.is_mark('<') => self.go_on(index, own),
            Kind::Lexeme(Lexeme::If | Lexeme::Match) => self.open(Form::Control, index, CONTROL),
            Kind::Lexeme(Lexeme::For | Lexeme::While) => self.open(Form::Control, index, CONTROL),
            Kind::Lexeme(Lexeme::Loop) => self.open(Form::Control, index, CONTROL),
            Kind::Lexeme(Lexeme::Let) => self.open(Form::Let, index, WEAKEST),
            Kind::Lexeme(Lexeme::Return) => self.open(Form::Plain, index, WEAKEST),
            Kind::Lexeme(Lexeme::Prefix) if closure => self.open(Form::Closure, index, WEAKEST),
            Kind::Lexeme(Lexeme::Prefix) => self.open(Form::Plain, index, BEFORE),
            _ => self.go_on(index, own),
        }
    }

    /// Opens a node, which takes operands.
    fn open(&mut self, form: Form, index: usize, strength: usize) {
        let node = self.push_node(form, index, index);
        let control = (strength == CONTROL) as usize;
        self.reader.controls = self.reader.controls.saturating_add(control);
        push_item(&mut self.reader.opens, (node, strength), &mut self.failure);
    }

    /// Returns the last open node and its strength.
    fn top(&self) -> (usize, usize) {
        self.reader.opens.last().copied().unwrap_or((NOWHERE, ARM))
    }

    /// Takes the atom after an operand.
    fn take_next(&mut self, index: usize, own: &Atom) {
        if own.is_name() || own.role == Role::Path {
            return self.go_on(index, own);
        }
        let previous = *self.previous(index);
        let strength = strength_of(own, &previous, self.next(index));
        let body = own.is_body() && self.reader.controls > 0 && previous.role != Role::Bang;
        let inside = !self.reader.opens.is_empty();
        match own.kind {
            Kind::Group(_) if body => self.take_block(index, own),
            Kind::Lexeme(Lexeme::In | Lexeme::Else) if inside => self.attach(ASSIGN, index),
            Kind::Lexeme(Lexeme::If) => self.take_arm(index),
            Kind::Sign(_) if own.role == Role::Arm => self.take_arm(index),
            Kind::Sign(_) if own.role == Role::Dot && !previous.glued => self.take_dot(index),
            Kind::Sign(_) if own.role == Role::BarClose => self.attach(ASSIGN, index),
            _ if strength > WEAKEST => self.take_operator(index, strength),
            _ => self.go_on(index, own),
        }
    }

    /// Ends the pattern of an arm, or its guard.
    fn take_arm(&mut self, index: usize) {
        self.reduce(CONTROL, index);
        let child = self.take_operand(index);
        if self.node(self.top().0).form != Form::Arm {
            let first = self.node(child).first;
            self.open(Form::Arm, first, ARM);
        }
        self.append(self.top().0, child);
    }

    /// Ends a call of a chain before this dot.
    fn take_dot(&mut self, index: usize) {
        let call = self.take_call(index);
        if self.reader.chain == NOWHERE {
            let first = self.node(call).first;
            self.reader.chain = self.push_node(Form::Chain, first, index);
        }
        self.append(self.reader.chain, call);
        self.reader.operand = self.push_node(Form::Plain, index, index);
    }

    /// Ends the operand, and returns its node, or that of its last call.
    fn take_call(&mut self, end: usize) -> usize {
        let node = self.reader.operand;
        let own = *self.node(node);
        let only = *self.node(own.child);
        self.reader.operand = NOWHERE;
        if own.child != NOWHERE && only.first == own.first && only.end == end {
            return own.child;
        }
        self.finish(node, end);
        node
    }

    /// Ends the operand, and returns its node, or `NOWHERE`.
    fn take_operand(&mut self, end: usize) -> usize {
        let chain = self.reader.chain;
        self.reader.chain = NOWHERE;
        let call = self.take_call(end);
        if chain == NOWHERE {
            return call;
        }
        self.append(chain, call);
        self.finish(chain, end);
        chain
    }

    /// Ends the nodes that bind at least as strongly. The operand begins with the first of them.
    fn reduce(&mut self, strength: usize, end: usize) {
        for _ in 0..self.reader.opens.len() {
            if self.top().1 < strength {
                break;
            }
            self.reduce_one(end);
        }
    }

    /// Ends the last open node.
    fn reduce_one(&mut self, end: usize) {
        let child = self.take_operand(end);
        if let Some((node, strength)) = self.reader.opens.pop() {
            let control = (strength == CONTROL) as usize;
            self.reader.controls = self.reader.controls.saturating_sub(control);
            self.append(node, child);
            self.finish(node, end);
            let first = self.node(node).first;
            self.reader.operand = self.push_node(Form::Plain, first, first);
            self.append(self.reader.operand, node);
        }
    }

    /// Ends the nodes that bind at least as strongly, and gives the operand to the last open node.
    fn attach(&mut self, strength: usize, end: usize) {
        self.reduce(strength, end);
        let child = self.take_operand(end);
        self.append(self.top().0, child);
    }

    /// Takes the block of the last `if`, `match` or loop, which ends unless `else` follows.
    fn take_block(&mut self, index: usize, own: &Atom) {
        self.reduce(WEAKEST, index);
        let child = self.take_operand(index);
        let (node, _) = self.top();
        self.append(node, child);
        self.append(node, own.node);
        if let Some(control) = self.nodes.get_mut(node) {
            control.from = control.from.min(own.node);
        }
        if !self.next(index).is_word(Lexeme::Else) {
            self.reduce_one(index.saturating_add(1));
        }
    }

    /// Takes an operator of two operands.
    fn take_operator(&mut self, index: usize, strength: usize) {
        self.reduce(strength.saturating_add(1), index);
        let (node, own_strength) = self.top();
        let own = *self.node(node);
        if strength == ASSIGN && own.form == Form::Let && own.child == NOWHERE {
            // A `let` in a condition ends before `&&`.
            let statement = self.reader.opens.len() == 1;
            self.attach(ASSIGN, index);
            self.reader.opens.pop();
            let kept = if statement { WEAKEST } else { AND };
            return push_item(&mut self.reader.opens, (node, kept), &mut self.failure);
        }
        if own.form == Form::Operators && own_strength == strength && strength != CAST {
            return self.attach(BEFORE, index);
        }
        if strength != ASSIGN {
            self.reduce(strength, index);
        }
        let form = match strength {
            ASSIGN => Form::Assign,
            RANGE => Form::Plain,
            _ => Form::Operators,
        };
        let child = self.take_operand(index);
        let first = self.node(child).first;
        self.open(form, first, strength);
        self.append(self.top().0, child);
    }
}

/// Returns the strength of an operator, or `WEAKEST` if the atom is none.
fn strength_of(own: &Atom, previous: &Atom, next: &Atom) -> usize {
    match own.kind {
        _ if own.role == Role::Range => RANGE,
        Kind::Lexeme(Lexeme::As) => CAST,
        _ if own.role != Role::Between || previous.glued && previous.is_sign() => WEAKEST,
        Kind::Sign(Sign::Assign | Sign::One('=')) => ASSIGN,
        Kind::Sign(Sign::Or) => 5,
        Kind::Sign(Sign::And) => AND,
        Kind::Sign(Sign::One(mark @ ('<' | '>'))) if own.glued && next.is_mark(mark) => 11,
        Kind::Sign(Sign::Compare | Sign::One('<' | '>')) => 7,
        Kind::Sign(Sign::One('|')) => 8,
        Kind::Sign(Sign::One('^')) => 9,
        Kind::Sign(Sign::One('&')) => 10,
        Kind::Sign(Sign::One('+' | '-')) => 12,
        Kind::Sign(Sign::One('*' | '/' | '%')) => 13,
        _ => WEAKEST,
    }
}
