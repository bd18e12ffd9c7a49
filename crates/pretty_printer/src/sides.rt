//! Breaks the lines of chains and operators, of what has a left and a right side, and of control flow.
use crate::atoms::{Lexeme, Role};
use crate::limits::CALL;
use crate::lines::{LayStep, TAB, Task, WIDTH, deeper};
use crate::tree::{Form, NO_HEAD, NOWHERE, Node, Tree};

/// The number of columns of ` => {`.
const ARM: usize = 5;
/// The largest width of a pattern if several patterns share a line.
const PATTERN: usize = 20;

impl Tree {
    /// Lays out a chain that is not on one line.
    pub fn lay_chain(&mut self, task: &Task, own: &Node) {
        let call = *self.node(own.last);
        let before = self.distance(own.first, call.first);
        let width = self.width(call.first, call.end);
        let several = self.node(own.child).next != own.last;
        let rest = WIDTH.saturating_sub(self.column.saturating_add(task.tail));
        let room = if several { rest.min(CALL) } else { rest };
        let alone = deeper(task.indent).saturating_add(width);
        let fits_alone = !call.must && alone.saturating_add(task.tail) <= WIDTH;
        let fits = before.saturating_add(width) <= room;
        let opens = !fits_alone && before.saturating_add(call.head) <= room;
        if !self.is_tall(own.first, call.first) && (fits || opens) {
            // Only the last call goes on over the next lines.
            self.put(own.first, call.first);
            return self.lay(own.last, task.indent, task.tail);
        }
        // The first call of a short root that begins a line is on its line.
        let next = self.node(own.child).next;
        let short = self.distance(own.first, self.node(next).first) <= TAB;
        let joined = match short && self.column <= task.indent {
            true => next,
            false => own.child,
        };
        let root = *self.node(joined);
        self.put(own.first, root.first);
        self.leave(LayStep::Next, task, &root);
        self.lay(joined, task.indent, task.tail);
    }

    /// Writes the next call of a chain on its own line, which is deeper unless a line of closers ends the root.
    pub fn next_call(&mut self, task: &Task, own: &Node, child: &Node) {
        let mut rest = *task;
        if task.step == LayStep::Next && !self.is_shut {
            rest.indent = deeper(task.indent);
        }
        self.begin_line(child.first, rest.indent);
        self.leave(LayStep::Part, &rest, child);
        let tail = if child.end == own.end { task.tail } else { 0 };
        self.lay(task.child, rest.indent, tail);
    }

    /// Writes the next operand, with its operator at the beginning of a line. Lines of patterns are not deeper.
    pub fn next_operand(&mut self, task: &Task, own: &Node, child: &Node) {
        let cast = self.atom(task.at).is_word(Lexeme::As);
        let tail = if cast { task.tail } else { ARM };
        let fills = (cast || task.step == LayStep::Fill)
            && self.fit(task.at, child.end, tail.saturating_add(1));
        let pattern = matches!(task.step, LayStep::Part | LayStep::Fill);
        let below = deeper(task.indent);
        let inner = if pattern { task.indent } else { below };
        // No operand is alone on a line that is not longer than its indentation.
        let orphan = !pattern && self.column <= below;
        self.leave(task.step, task, child);
        if child.first == own.first {
            return self.lay(task.child, task.indent, task.tail);
        }
        match fills || orphan {
            true => self.lead(own, task.at),
            false => self.begin_line(task.at, inner),
        }
        self.put(task.at, child.first);
        self.lead(own, child.first);
        self.lay(
            task.child,
            if orphan { task.indent } else { inner },
            task.tail,
        );
    }

    /// Writes the next side of an assignment or a `let`, or the block after `else`.
    pub fn next_side(&mut self, task: &Task, own: &Node, child: &Node) {
        let word = child.first.saturating_sub(1);
        let before = *self.atom(word);
        let gives_up = before.is_word(Lexeme::Else);
        if gives_up && task.step == LayStep::Broken && !self.is_shut {
            self.begin_line(word, task.indent);
            self.put(word, child.first);
        } else {
            self.write(own, task.at, child.first);
        }
        self.lead(own, child.first);
        let tail = self.tail_of(task, own, child);
        let fits = self.fits(child, tail);
        let step = if fits { LayStep::Next } else { LayStep::Broken };
        self.leave(step, task, child);
        if gives_up {
            return self.lay_lines(task, task.child);
        }
        // The right side of `=`, or its first line, may fit only on the next line. Closures stay.
        let equals = before.role == Role::Between && child.first > own.first;
        let below = deeper(task.indent);
        let stays = child.must || child.form == Form::Closure && child.head != NO_HEAD;
        let opens = self.column.saturating_add(child.head) <= WIDTH;
        let whole = self.width(child.first, child.end).saturating_add(tail);
        let width = if stays { NO_HEAD } else { whole };
        let needed = if opens { width } else { width.min(child.head) };
        let moves = equals && !fits && below < self.column && below.saturating_add(needed) <= WIDTH;
        if moves {
            self.begin_line(child.first, below);
        }
        self.lay(task.child, if moves { below } else { task.indent }, tail);
    }

    /// Writes the next condition or block of an `if`, a `match` or a loop.
    pub fn next_of_control(&mut self, task: &Task, own: &Node, child: &Node) {
        let block = child.form == Form::Group && self.atom(child.first).is_brace();
        let line = block && task.step == LayStep::Broken && !self.is_shut;
        self.reach(task, own, child, line);
        let flat = block || self.fits(child, 2);
        let step = if flat { LayStep::Next } else { LayStep::Broken };
        self.leave(step, task, child);
        let others = child.next != NOWHERE || task.child != own.from;
        if block && (others || self.atom(child.first).is_full()) {
            return self.lay_lines(task, task.child);
        }
        self.lay(task.child, task.indent, 0);
    }

    /// Lays out an arm that is not on one line, with each of its patterns on its own line if they do not fit.
    pub fn lay_arm(&mut self, task: &Task, own: &Node) {
        let pattern = *self.node(own.child);
        let bar = self.node(pattern.child).end;
        let bars = pattern.form == Form::Operators && self.atom(bar).is_mark('|');
        if !bars || self.fits(&pattern, ARM) {
            return self.push(LayStep::Next, task, own.child, own.first);
        }
        self.leave(LayStep::Broken, task, &pattern);
        let mut patterns = *task;
        patterns.node = own.child;
        patterns.tail = 3;
        let short = self.are_short(pattern.first, pattern.end, Role::Between, PATTERN);
        let step = if short { LayStep::Fill } else { LayStep::Part };
        self.push(step, &patterns, pattern.child, pattern.first);
    }
}
