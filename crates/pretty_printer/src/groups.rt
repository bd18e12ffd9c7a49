//! Breaks the lines of groups and of items.
use crate::atoms::{Atom, Kind, Lexeme, Role, White};
use crate::limits::CALL;
use crate::lines::{DEEPEST, LayStep, Task, WIDTH, deeper};
use crate::tree::{Form, NOWHERE, Node, Tree};

/// The largest width of an element if several elements share a line.
const SHORT: usize = 10;

impl Tree {
    /// Lays out a group that is not on one line. The gap before it is written.
    pub fn lay_group(&mut self, task: &Task) {
        self.read_parts(task.node);
        let own = *self.node(task.node);
        let atom = *self.atom(own.first);
        let doc = atom.role == Role::Attribute && own.until.saturating_sub(own.from) == 3;
        if own.child == NOWHERE || doc {
            return self.put(own.first, own.end);
        }
        self.read_unread(own.last);
        let inside = atom.role == Role::Attribute || self.is_doubled(&own);
        let head = self.head_inside(&own);
        let last = *self.node(own.last);
        // A call that is too long as the only argument breaks its lines, and so do its own arguments.
        let tall = last.must || self.is_tall(own.from, own.until);
        let forced = own.must && !tall && atom.role == Role::Plain && own.child == own.last;
        let group = match last.form {
            Form::Group => own.last,
            _ => last.last,
        };
        let opens = !forced || self.node(group).form == Form::Group;
        if !opens || !inside && self.column.saturating_add(head) >= WIDTH {
            return self.lay_lines(task, task.node);
        }
        for node in [own.last, group] {
            if let Some(node) = self.nodes.get_mut(node) {
                node.must = node.must || forced;
            }
        }
        // The last part goes on over the next lines, as if there were no delimiters.
        self.open_group(LayStep::Shut, task, task.node);
        self.put(own.from, last.first);
        self.lead(&own, last.first);
        self.lay(own.last, task.indent, task.tail.saturating_add(1));
    }

    /// Writes the opener of a group, and leaves its closer to this step.
    fn open_group(&mut self, step: LayStep, task: &Task, group: usize) {
        self.column = self.column.saturating_add(1);
        self.is_shut = false;
        self.push(step, task, group, NOWHERE);
    }

    /// Begins to write a group, which is in the node of the task or is it, with its parts on lines.
    pub fn lay_lines(&mut self, task: &Task, group: usize) {
        self.read_parts(group);
        let own = *self.node(group);
        self.open_group(LayStep::Close, task, group);
        self.push_parts(self.step_of(&own, task.tail), task, group);
    }

    /// Leaves the parts of a list to this step. Their lines are deeper than those of the task.
    fn push_parts(&mut self, step: LayStep, task: &Task, list: usize) {
        let mut parts = *task;
        parts.node = list;
        parts.indent = deeper(task.indent);
        self.push(step, &parts, self.node(list).child, NOWHERE);
    }

    /// Returns the step that writes the parts of a group, with so many characters after it.
    fn step_of(&self, own: &Node, tail: usize) -> LayStep {
        let (from, until) = (own.from, own.until);
        let atom = self.atom(own.first);
        // Arguments and tuples that would fit on this line without their last comma have a line each.
        let comma = atom.is_round() && self.previous(until).role == Role::Comma;
        let fits = comma && self.width(from, until) <= CALL + 1 && self.fit(from, until, tail);
        let list = atom.is_list() && !fits && !matches!(atom.role, Role::Params | Role::Repeated);
        let short = list && self.are_short(from, until, Role::Comma, SHORT);
        match atom.role {
            Role::Use if self.find_role(from, until, Role::Use) < until => LayStep::Names,
            role if role == Role::Use || short => LayStep::Fill,
            _ => LayStep::Part,
        }
    }

    /// Returns whether the atoms between those with this role are names, literals and fields of this width at most.
    pub fn are_short(&self, from: usize, end: usize, between: Role, most: usize) -> bool {
        let mut start = from;
        for index in from..end {
            let atom = self.atom(index);
            let mark = matches!(atom.role, Role::Dot | Role::Before | Role::After);
            let short = !atom.tall && self.width(start, index.saturating_add(1)) <= most;
            match atom.role == between {
                true => start = index.saturating_add(1),
                false if short && (mark || atom.is_any_word()) => {}
                false => return false,
            }
        }
        true
    }

    /// Writes the next part of a list.
    pub fn next_part(&mut self, task: &Task, own: &Node, part: &Node) {
        let last = *self.node(task.at);
        let first = task.at == NOWHERE;
        if !first {
            self.put(last.end, part.first);
        }
        let fills = match task.step {
            // A path in imports with inner lists has its own line.
            LayStep::Names => self.find_role(last.first, part.end, Role::Path) == part.end,
            step => step == LayStep::Fill,
        };
        if !first && fills && self.fits(part, 2) {
            self.lead(own, part.first);
        } else {
            self.begin_line(part.first, task.indent);
            if !first && self.parts_items(&last, part) {
                self.set_gap(part.first, White::Blank(task.indent.min(DEEPEST) as u8));
            }
        }
        self.push(task.step, task, part.next, task.child);
        let comma = part.end < own.until && self.atom(part.end).ends_part();
        self.lay(task.child, task.indent, comma as usize);
    }

    /// Returns whether an empty line is between two parts: between two items, if one of them has several lines or the
    /// second has an attribute.
    pub fn parts_items(&self, last: &Node, next: &Node) -> bool {
        let tall = self.is_tall(last.first, last.end) || self.is_tall(next.first, next.end);
        self.is_item(last) && (self.atom(next.first).is_mark('#') || tall && self.is_item(next))
    }

    /// Returns whether the part is an item.
    fn is_item(&self, part: &Node) -> bool {
        let begins = match self.atom(part.first).kind {
            Kind::Lexeme(Lexeme::Pub | Lexeme::Fn | Lexeme::Impl | Lexeme::Item) => true,
            Kind::Lexeme(Lexeme::Prefix | Lexeme::Keyword) => true,
            _ => false,
        };
        begins && (self.atom(part.end).is_mark(';') || self.previous(part.end).is_brace())
    }

    /// Writes the next child of an item: its head on one line if it fits, and otherwise its parameters on lines.
    pub fn next_of_item(&mut self, task: &Task, own: &Node, child: &Node) {
        let atom = *self.atom(child.first);
        if child.form == Form::Bounds {
            return self.next_bounds(task, own, child);
        }
        if child.first >= own.until {
            return self.next_body(task, own, child, &atom);
        }
        let after = self.atom(own.until);
        let brace: usize = if after.is_brace() { 2 } else { 0 };
        let tail = brace.saturating_add((!after.is_full() && after.role != Role::Where) as usize);
        let space = (task.at > own.first && self.atom(task.at).is_spaced()) as usize;
        if !child.must && self.fit(task.at, own.until, tail.saturating_add(space)) {
            return self.push(task.step, task, child.next, task.at);
        }
        let result = atom.role != Role::Less && !atom.is_round();
        if result && self.fit(task.at, own.until, space) {
            // Only the brace is on the next line.
            return self.push(LayStep::Apart, task, child.next, task.at);
        }
        self.reach(task, own, child, false);
        self.leave(LayStep::Broken, task, child);
        if atom.is_round() && atom.is_full() {
            return self.lay_lines(task, task.child);
        }
        let tail = self.tail_of(task, own, child);
        self.lay(task.child, task.indent, tail);
    }

    /// Writes the bounds after `where`.
    fn next_bounds(&mut self, task: &Task, own: &Node, child: &Node) {
        // After parameters on lines they go on.
        let goes_on = task.step == LayStep::Broken && self.is_shut && task.at == child.first;
        self.reach(task, own, child, !goes_on);
        self.put(child.first, child.from);
        self.leave(LayStep::Apart, task, child);
        self.read_parts(task.child);
        self.push_parts(LayStep::Part, task, task.child);
    }

    /// Writes the body of an item. An empty one after a head of several lines has two lines.
    fn next_body(&mut self, task: &Task, own: &Node, child: &Node, brace: &Atom) {
        self.reach(task, own, child, task.step == LayStep::Apart);
        self.leave(LayStep::Next, task, child);
        if task.step != LayStep::Next && !brace.is_full() {
            return self.lay_lines(task, task.child);
        }
        self.lay(task.child, task.indent, 0);
    }
}
