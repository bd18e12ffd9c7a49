//! The lines of a text's declarations. No trees are built for what is not read, such as the bodies of functions.
ghost use Rattle.std.specs.Prelude.{◌≡◌, ◌+◌, ◌-◌, ◌++◌, ◌<◌, ◌≤◌, ℕ, IfErr, IfOk, List, [], OnOk, drop, length};
ghost use Rattle.std.specs.Prelude.{map as mapped, option_copied, option_map, string_bytes};
ghost use Rattle.std.specs.Option.{option_to_list};
ghost use Rattle.pm_span.specs.Files.{new_map, with_file};
ghost use Rattle.pm_stream.specs.declared.stream.Group.{Group as Grouped};
ghost use Rattle.pm_stream.specs.declared.stream.TokenTree.{TokenTree as Tree};
ghost use Rattle.declarations.specs.Forms.{AreInnerAttributes};
ghost use Rattle.declarations.specs.Reading.{Reads};
ghost use Rattle.outline.specs.Answer.{lines_of};
ghost use Rattle.outline.specs.Levels.{BeginsWith, IsStopped, Takes, level_left, trees_left};
ghost use Rattle.outline.specs.Outline.{AreTrees, IsTreesOutline, Outline, entries_of, is_listed, lists};
ghost use Rattle.outline.specs.Outline.{entry_of_value};

use crate::answer::entry_line;
use crate::entries::{Entry, Stop, entry_of, is_listed};
use crate::level::Level;
use crate::options::Form;
use declarations::{split_any_item, split_inner_attributes};
use proc_macro2::SourceMap;
use std::alloc::{AllocError, Global};
use token_buffer::Cursor;

/// An item that has been read.
#[derive(Drop)]
struct ReadItem {
    /// The line of the item, if it is listed.
    line: Option<String>,
    /// The number of its trees.
    count: usize,
    /// Whether its last tree is a group in braces that holds items.
    has_body: bool,
}

/// Returns the lines of the declarations of a file in reading order, or a `Stop` if its trees are no items.
pub fn lines_in(
    alloc: Global,
    form: Form,
    path: &str,
    map: &SourceMap,
    file: Cursor<'_>,
) -> Result<Result<Vec<String>, Stop>, AllocError>
    ensures ok { (text : List ℕ) → map.now ≡ with_file new_map text → IfOk result (λ found. IfOk found (λ lines.
        (outline : Outline) × IsTreesOutline (trees_left file.entry) outline
        × (mapped string_bytes lines.items ≡ lines_of form path.now text (entries_of outline)))) }
    ensures none { IfOk result (λ found. IfErr found (λ stop. (outline : Outline)
        → IsTreesOutline (trees_left file.entry) outline → ⊥)) }
{
    let mut lines = Vec::new(alloc);
    let first = match level_of(alloc, file)? {
        Ok(level) => level,
        Err(stop) => return Ok(Err(stop)),
    };
    // The file and each open declaration. The innermost comes last.
    let mut levels = Vec::new(alloc);
    levels.push(first)?;
    // Each step takes an item or leaves a declaration. The bound is never reached: memory cannot hold so many trees.
    'walk: for _ in 0..u64::MAX {
        let Some(level) = levels.pop() else {
            return Ok(Ok(lines));
        };
        if level.rest.eof() {
            continue 'walk;
        }
        let step = match step_of(alloc, form, path, map, levels.len(), &level)? {
            Ok(step) => step,
            Err(stop) => return Ok(Err(stop)),
        };
        let ReadItem {
            line,
            count,
            has_body,
        } = step;
        push_line(&mut lines, line)?;
        let last = past(level.rest, count - 1);
        levels.push(advance(level, count, last))?;
        if !has_body {
            continue 'walk;
        }
        match inside_of(alloc, last)? {
            Ok(inside) => levels.push(inside)?,
            Err(stop) => return Ok(Err(stop)),
        }
    }
    Err(AllocError)
}

/// Appends the line, if there is one.
fn push_line(lines: &mut Vec<String>, line: Option<String>) -> Result<(), AllocError>
    ensures { OnOk result (mapped string_bytes lines.new.items ≡ mapped string_bytes lines.old.items
        ++ option_to_list (option_map string_bytes line)) }
{
    if let Some(line) = line {
        lines.push(line)?;
    }
    Ok(())
}

/// The items after the inner attributes.
fn level_of(alloc: Global, whole: Cursor<'_>) -> Result<Result<Level<'_>, Stop>, AllocError>
    ensures ok { IfOk result (λ found. IfOk found (λ level. (inner : List Tree)
        × Reads AreInnerAttributes (trees_left whole.entry) inner (level_left level))) }
    ensures none { IfOk result (λ found. IfErr found (λ stop. (inner : List Tree) → (items : List Tree)
        → Reads AreInnerAttributes (trees_left whole.entry) inner items → ⊥)) }
{
    let trees = whole.outer_trees(alloc)?;
    let at = match split_inner_attributes(trees.as_slice()) {
        Ok((inner, _)) => inner.len(),
        Err(fault) => return Ok(Err(Stop::at(fault, trees.as_slice()))),
    };
    let rest = past(whole, at);
    Ok(Ok(Level { trees, at, rest }))
}

/// The items in the group that the cursor is at.
fn inside_of(alloc: Global, body: Cursor<'_>) -> Result<Result<Level<'_>, Stop>, AllocError>
    requires { (group : Grouped) × BeginsWith body group }
    ensures ok { IfOk result (λ found. IfOk found (λ level. (group : Grouped) → BeginsWith body.entry group
        → AreTrees group.stream (level_left level))) }
    ensures none { IfOk result (λ found. IfErr found (λ stop. (group : Grouped) → BeginsWith body.entry group
        → (items : List Tree) → AreTrees group.stream items → ⊥)) }
{
    match body.any_group() {
        Some((_, inside, _)) => level_of(alloc, inside),
        None => unreachable!(),
    }
}

/// The cursor after so many trees.
fn past(cursor: Cursor<'_>, count: usize) -> Cursor<'_>
    ensures { trees_left result ≡ drop count (trees_left cursor.entry) }
{
    let mut here = cursor;
    for _ in 0..count {
        match here.skip() {
            Some(rest) => here = rest,
            None => return here,
        }
    }
    here
}

/// The level after so many more of its trees. `last` is the cursor at the last of these trees.
fn advance<'a>(level: Level<'a>, count: usize, last: Cursor<'a>) -> Level<'a>
    requires within { level.at + count ≤ length level.trees.items }
    requires some { 0 < count }
    requires last { trees_left last ≡ drop (count - 1) (level_left level) }
    ensures { level_left result ≡ drop count (level_left level.entry) }
{
    let rest = past(last, 1);
    Level {
        trees: level.trees,
        at: level.at + count,
        rest,
    }
}

/// Reads the next item of a level. `depth` is the number of declarations that the item is in.
fn step_of(
    alloc: Global,
    form: Form,
    path: &str,
    map: &SourceMap,
    depth: usize,
    level: &Level<'_>,
) -> Result<Result<ReadItem, Stop>, AllocError>
    requires { level_left level.now ≡ [] → ⊥ }
    ensures ok { IfOk result (λ found. IfOk found (Takes map.now form path.now depth (level_left level.now))) }
    ensures none { IfOk result (λ found. IfErr found (λ stop. IsStopped (level_left level.now))) }
{
    let (_, left) = level.trees.as_slice().split_at(level.at);
    let item = match split_any_item(left) {
        Ok((item, _)) => item,
        Err(fault) => return Ok(Err(Stop::at(fault, left))),
    };
    let entry = match entry_of(depth, &item) {
        Ok(entry) => entry,
        Err(stop) => return Ok(Err(stop)),
    };
    let line = listed_line(alloc, form, path, map, &entry)?;
    Ok(Ok(ReadItem {
        line,
        count: item.trees.len(),
        has_body: item.body().is_some(),
    }))
}

/// The line of an entry, if it is listed. The map has only the entry's text.
fn listed_line(
    alloc: Global,
    form: Form,
    path: &str,
    map: &SourceMap,
    entry: &Entry<'_>,
) -> Result<Option<String>, AllocError>
    ensures { (text : List ℕ) → map.now ≡ with_file new_map text → IfOk result (λ line.
        option_to_list (option_map string_bytes line) ≡ lines_of form path.now text
        (lists (is_listed entry.now.kind (option_copied entry.now.name)) (entry_of_value entry.now))) }
{
    if is_listed(entry) {
        entry_line(alloc, form, path, map, entry)
    } else {
        Ok(None)
    }
}
