//! The declarations in trees.
ghost use Rattle.std.specs.Prelude.{◌≡◌, ◌++◌, IfErr, IfOk, List, OnOk, map, option_copied};
ghost use Rattle.pm_stream.specs.declared.stream.TokenTree.{TokenTree as Tree};
ghost use Rattle.declarations.specs.Forms.{AreAttributes, AreInnerAttributes};
ghost use Rattle.declarations.specs.Reading.{Reads};
ghost use Rattle.declarations.specs.File.{body_of};
ghost use Rattle.outline.specs.Outline.{AreInside, IsTreesOutline, NeverOpens, Opens, Outline, entries_of, entry_of};
ghost use Rattle.outline.specs.Outline.{first_of, is_listed, last_of, lists, entry_of_value};

use declarations::{AnyItem, Fault, ItemKind, Items, split_attributes, split_inner_attributes};
use pm_span::Span;
use pm_stream::TokenTree;
use pm_token::Ident;
use std::alloc::{AllocError, Global};

/// A declaration that may be listed.
#[derive(Clone, Copy)]
pub struct Entry<'a> {
    /// The number of declarations that it is in.
    pub depth: usize,
    /// The kind of the item.
    pub kind: ItemKind,
    /// The name, or `None` if it has none, such as an `impl` or an `extern` block.
    pub name: Option<&'a Ident>,
    /// The trees of the item after its attributes.
    pub header: &'a [TokenTree],
}

/// An error: where trees are no items.
#[derive(Clone, Copy)]
pub struct Stop {
    /// The error in the trees.
    pub fault: Fault,
    /// The span of the last tree, after which more trees may be missing.
    pub last: Option<Span>,
}

/// Returns the declarations of a file in reading order, each before those in it.
///
/// If the trees are no items, it returns a `Stop`. For `mod m { fn f() {} } struct S;` it returns `m`, `f` with the
/// depth 1, and `S`.
pub fn entries<'a>(
    alloc: Global,
    trees: &'a [TokenTree],
) -> Result<Result<Vec<Entry<'a>>, Stop>, AllocError>
    ensures ok { IfOk result (λ found. IfOk found (λ entries. (outline : Outline) × IsTreesOutline trees.now outline
        × (map entry_of_value entries.items ≡ entries_of outline))) }
    ensures none { IfOk result (λ found. IfErr found (λ stop. (outline : Outline) → IsTreesOutline trees.now outline
        → ⊥)) }
{
    let mut entries = Vec::new(alloc);
    let items = match items_of(trees) {
        Ok(items) => items,
        Err(stop) => return Ok(Err(stop)),
    };
    // The items that are left of the file and of each open declaration. The innermost comes last.
    let mut levels = Vec::new(alloc);
    levels.push(items)?;
    // Each step takes an item or leaves a declaration. The bound is never reached: memory cannot hold so many trees.
    'walk: for _ in 0..u64::MAX {
        let Some(mut here) = levels.pop() else {
            return Ok(Ok(entries));
        };
        if here.left.is_empty() {
            continue 'walk;
        }
        let left = here.left;
        let Some(found) = here.next() else {
            continue 'walk;
        };
        let item = match found {
            Ok(item) => item,
            Err(fault) => return Ok(Err(Stop::at(fault, left))),
        };
        let (entry, inside) = match open_item(levels.len(), &item) {
            Ok(both) => both,
            Err(stop) => return Ok(Err(stop)),
        };
        push_listed(&mut entries, entry)?;
        levels.push(here)?;
        levels.push(inside)?;
    }
    Err(AllocError)
}

/// Appends the entry if it is listed.
fn push_listed<'a>(entries: &mut Vec<Entry<'a>>, entry: Entry<'a>) -> Result<(), AllocError>
    ensures { OnOk result (map entry_of_value entries.new.items ≡ map entry_of_value entries.old.items
        ++ lists (is_listed entry.entry.kind (option_copied entry.entry.name)) (entry_of_value entry.entry)) }
{
    if is_listed(&entry) {
        entries.push(entry)?;
    }
    Ok(())
}

/// Returns whether the item is listed: it has a name, or its header is shown instead of one.
pub fn is_listed(entry: &Entry<'_>) -> bool
    ensures { result ≡ is_listed entry.now.kind (option_copied entry.now.name) }
{
    match entry.kind {
        ItemKind::Impl | ItemKind::ExternBlock => true,
        _ => entry.name.is_some(),
    }
}

/// The items after the inner attributes.
fn items_of(trees: &[TokenTree]) -> Result<Items<'_>, Stop>
    ensures ok { IfOk result (λ items. (inner : List Tree)
        × Reads AreInnerAttributes trees.now inner items.left.now) }
    ensures none { IfErr result (λ stop. (inner : List Tree) → (items : List Tree)
        → Reads AreInnerAttributes trees.now inner items → ⊥) }
{
    match split_inner_attributes(trees) {
        Ok((_, left)) => Ok(Items { left }),
        Err(fault) => Err(Stop::at(fault, trees)),
    }
}

/// The entry of an item, and the items in its braces. `depth` is the number of declarations that it is in.
fn open_item<'a>(depth: usize, item: &AnyItem<'a>) -> Result<(Entry<'a>, Items<'a>), Stop>
    ensures ok { IfOk result (λ found. Opens depth item.now found.0 found.1) }
    ensures none { IfErr result (λ stop. NeverOpens item.now) }
{
    let entry = match entry_of(depth, item) {
        Ok(entry) => entry,
        Err(stop) => return Err(stop),
    };
    match items_in(item) {
        Ok(inside) => Ok((entry, inside)),
        Err(stop) => Err(stop),
    }
}

/// The items in the braces of an item, or none if it has no such braces.
fn items_in<'a>(item: &AnyItem<'a>) -> Result<Items<'a>, Stop>
    ensures ok { IfOk result (λ inside. AreInside (body_of item.now.kind item.now.trees.now) inside.left.now) }
    ensures none { IfErr result (λ stop. (items : List Tree)
        → AreInside (body_of item.now.kind item.now.trees.now) items → ⊥) }
{
    match item.body() {
        Some(group) => items_of(group.stream_ref().trees()),
        None => Ok(Items { left: &[] }),
    }
}

/// Returns the entry of an item. `depth` is the number of declarations that it is in.
pub fn entry_of<'a>(depth: usize, item: &AnyItem<'a>) -> Result<Entry<'a>, Stop>
    ensures ok { IfOk result (λ entry. (attributes : List Tree)
        × Reads AreAttributes item.now.trees.now attributes entry.header.now
        × (entry_of_value entry ≡ entry_of depth item.now.kind (option_copied item.now.name) entry.header.now)) }
    ensures none { IfErr result (λ stop. (attributes : List Tree) → (header : List Tree)
        → Reads AreAttributes item.now.trees.now attributes header → ⊥) }
{
    match split_attributes(item.trees) {
        Ok((_, header)) => Ok(Entry {
            depth,
            kind: item.kind,
            name: item.name,
            header,
        }),
        Err(fault) => Err(Stop::at(fault, item.trees)),
    }
}

/// Returns the span of the first tree.
pub fn first_of(trees: &[TokenTree]) -> Span
    ensures { result ≡ first_of trees.now }
{
    match trees.split_first() {
        Some((first, _)) => first.span(),
        None => Span::call_site(),
    }
}

/// Returns the span of the last tree but one, or of the only tree.
pub fn last_of(trees: &[TokenTree]) -> Span
    ensures { result ≡ last_of trees.now }
{
    match trees.split_last() {
        Some((last, front)) => match front.split_last() {
            Some((before, _)) => before.span(),
            None => last.span(),
        },
        None => Span::call_site(),
    }
}

impl Stop {
    /// Returns the error in these trees.
    pub fn at(fault: Fault, trees: &[TokenTree]) -> Stop {
        let last = match trees.split_last() {
            Some((last, _)) => Some(last.span()),
            None => None,
        };
        Stop { fault, last }
    }
}
