//! The holes of a template and their values.
ghost use Rattle.std.specs.Prelude.{◌≡◌, Some, nat_eq};
ghost use Rattle.std.specs.Cmp.Lexicographic.{pointwise};
ghost use Rattle.std.specs.Str.{chars};
ghost use Rattle.quoting.specs.Given.{filling_by, in_turns, looked_up, name_and_filling, named_all, span_of, text_of};
ghost use Rattle.quoting.specs.Holes.{filling_of, in_turn, list_length, value_at};
ghost use Rattle.quoting.specs.Items.{each_of};
ghost use Rattle.quoting.specs.Items.{One as OneStream, Each as EachStream};
ghost use Rattle.quoting.specs.Kept.{item_filling};
ghost use Rattle.quoting.specs.Values.{value_of};

use crate::values::{Item, Value};
use proc_macro2::{Ident, Literal, Span, TokenStream, TokenTree};

/// A name that templates can use, and its value: trees or a list.
#[derive(Clone, Copy)]
pub struct Hole<'a> {
    name: &'a str,
    filling: Filling<'a>,
}

/// The value of a hole, or of a list's element.
#[derive(Clone, Copy)]
pub(crate) enum Filling<'a> {
    // The trees of one stream.
    One(&'a TokenStream),
    // A list of streams, of which each turn of a repetition takes the next.
    Each(&'a [TokenStream]),
    // A value of any kind.
    Of(&'a Value<'a>),
    // The elements of lists of trees, identifiers, literals and strings.
    Tree(&'a TokenTree),
    Ident(&'a Ident),
    Literal(&'a Literal),
    Text(&'a str),
    Item(&'a Item),
}

impl<'a> Hole<'a> {
    /// Returns a hole whose value is one stream: `#name` is replaced by its trees.
    ///
    /// The name is the text of an identifier, or ASCII digits.
    pub fn one(name: &'a str, stream: &'a TokenStream) -> Hole<'a>
        ensures { name_and_filling result ≡ record { name = chars name.now; filling = OneStream stream.now } }
    {
        Hole {
            name,
            filling: Filling::One(stream),
        }
    }

    /// Returns a hole whose value is a list of streams: each turn of a repetition takes the next one.
    pub fn each(name: &'a str, streams: &'a [TokenStream]) -> Hole<'a>
        ensures { name_and_filling result
            ≡ record { name = chars name.now; filling = EachStream (each_of OneStream streams.now) } }
    {
        Hole {
            name,
            filling: Filling::Each(streams),
        }
    }

    /// Returns a hole with a value of any kind.
    ///
    /// With `Value::Number(Number::U8(7))` for `count`, `[0; #count]` is `[0; 7u8]`.
    pub fn of(name: &'a str, value: &'a Value<'a>) -> Hole<'a>
        ensures { name_and_filling result ≡ record { name = chars name.now; filling = value_of value.now } }
    {
        Hole {
            name,
            filling: Filling::Of(value),
        }
    }
}

impl<'a> Filling<'a> {
    /// Returns the list's value for a turn, counted from 0. Returns the filling itself if it is no list or has no value
    /// for the turn.
    fn in_turn(self, turn: usize) -> Filling<'a>
        ensures { filling_by result ≡ in_turn turn (filling_by self.entry) }
    {
        match self.value_at(turn) {
            Some(value) => value,
            None => self,
        }
    }

    /// Returns the list's value for a turn, or `None` if it is no list or has no value for the turn.
    #[tactic(auto, using(crate::proofs::ItemLemmas::item_at_each))]
    fn value_at(self, turn: usize) -> Option<Filling<'a>>
        ensures { looked_up result ≡ value_at turn (filling_by self.entry) }
    {
        match self {
            Filling::Each(streams) => Some(Filling::One(streams.get(turn)?)),
            Filling::Of(value) => list_value(value, turn),
            Filling::Item(item) => item_value(item, turn),
            Filling::One(_)
            | Filling::Tree(_)
            | Filling::Ident(_)
            | Filling::Literal(_)
            | Filling::Text(_) => None,
        }
    }

    /// Returns the number of values, if the filling is a list.
    #[tactic(auto, using(crate::proofs::ItemLemmas::item_count_each))]
    pub(crate) fn len(self) -> Option<usize>
        ensures { result ≡ list_length (Some (filling_by self.entry)) }
    {
        match self {
            Filling::Each(streams) => Some(streams.len()),
            Filling::Of(value) => list_len(value),
            Filling::Item(item) => item_len(item),
            Filling::One(_)
            | Filling::Tree(_)
            | Filling::Ident(_)
            | Filling::Literal(_)
            | Filling::Text(_) => None,
        }
    }
}

/// Returns the list's value for a turn, or `None` if `value` is no list or has no value for the turn.
#[tactic(auto, using(crate::proofs::ItemLemmas::item_at_each))]
fn list_value<'a>(value: &'a Value<'a>, turn: usize) -> Option<Filling<'a>>
    ensures { looked_up result ≡ value_at turn (value_of value.now) }
{
    match value {
        Value::Streams(streams) => Some(Filling::One(streams.get(turn)?)),
        Value::Trees(trees) => Some(Filling::Tree(trees.get(turn)?)),
        Value::Idents(idents) => Some(Filling::Ident(idents.get(turn)?)),
        Value::Literals(literals) => Some(Filling::Literal(literals.get(turn)?)),
        Value::Strings(texts) => Some(Filling::Text(texts.get(turn)?)),
        Value::List(values) => Some(Filling::Item(values.get(turn)?)),
        _ => None,
    }
}

/// Returns the number of values, if `value` is a list.
#[tactic(auto, using(crate::proofs::ItemLemmas::item_count_each))]
fn list_len(value: &Value<'_>) -> Option<usize>
    ensures { result ≡ list_length (Some (value_of value.now)) }
{
    match value {
        Value::Streams(streams) => Some(streams.len()),
        Value::Trees(trees) => Some(trees.len()),
        Value::Idents(idents) => Some(idents.len()),
        Value::Literals(literals) => Some(literals.len()),
        Value::Strings(texts) => Some(texts.len()),
        Value::List(values) => Some(values.len()),
        _ => None,
    }
}

/// Returns the value of an item for a turn, or `None` if the item is no list or has no such value.
fn item_value<'a>(item: &'a Item, turn: usize) -> Option<Filling<'a>>
    ensures { looked_up result ≡ value_at turn (item_filling item.now) }
{
    match item {
        Item::List(values) => Some(Filling::Item(values.get(turn)?)),
        _ => None,
    }
}

/// Returns how many values an item has, if it is a list.
fn item_len(item: &Item) -> Option<usize>
    ensures { result ≡ list_length (Some (item_filling item.now)) }
{
    match item {
        Item::List(values) => Some(values.len()),
        _ => None,
    }
}

/// The tree that names a hole in a template.
#[derive(Clone, Copy)]
pub(crate) enum HoleName<'a> {
    IdentName(&'a Ident),
    Digits(&'a Literal),
}

impl<'a> HoleName<'a> {
    /// Returns the span of the name in the template.
    pub(crate) fn span(&self) -> Span
        ensures { result ≡ span_of self.now }
    {
        match self {
            HoleName::IdentName(ident) => ident.span(),
            HoleName::Digits(literal) => literal.span(),
        }
    }

    /// Returns whether the name has this text.
    fn is(&self, text: &str) -> bool
        ensures { result ≡ pointwise nat_eq (text_of self.now) (chars text.now) }
    {
        match self {
            HoleName::IdentName(ident) => ident.eq_str(text),
            HoleName::Digits(literal) => literal.text() == text,
        }
    }

    /// Returns the value of the first hole of this name.
    fn filling_of_name<'h>(&self, holes: &[Hole<'h>]) -> Option<Filling<'h>>
        ensures { looked_up result ≡ filling_of (named_all holes.now) (text_of self.now) }
    {
        for hole in holes {
            if self.is(hole.name) {
                return Some(hole.filling);
            }
        }
        None
    }

    /// Returns the value of the first hole of this name in these turns of repetitions, the outermost first.
    #[tactic(auto, using(crate::proofs::ItemLemmas::filling_begun))]
    pub(crate) fn filling<'h>(&self, holes: &[Hole<'h>], turns: &[usize]) -> Option<Filling<'h>>
        ensures { looked_up result ≡ filling_of (in_turns holes.now turns.now) (text_of self.now) }
    {
        let mut filling = self.filling_of_name(holes)?;
        for turn in turns {
            filling = filling.in_turn(*turn);
        }
        Some(filling)
    }
}
