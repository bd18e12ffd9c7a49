//! Changes the spacings of a stream's marks so that its printed text reads back.
ghost use Rattle.std.specs.Prelude.{◌≡◌, ◌∷◌, IfOk, OnOk};
ghost use Rattle.proc_macro2.specs.Leaf.{is_joint, mark_token};
ghost use Rattle.proc_macro2.specs.Trees.{forest};
ghost use Rattle.proc_macro2.specs.WellSpaced.{next_token};
ghost use Rattle.quoting.specs.Part.{Adds, respaced_alone};
ghost use Rattle.quoting.specs.Respaced.{is_kept_joint, respace_marks};

use crate::open_list::OpenList;
use proc_macro2::token_stream::may_be_joint;
use proc_macro2::{Group, Punct, Spacing, TokenStream, TokenTree};
use std::alloc::{AllocError, Global};

/// Returns the stream with its marks respaced at any depth. Fails if memory runs out.
pub(crate) fn respace_marks(alloc: Global, stream: &TokenStream) -> Result<TokenStream, AllocError>
    ensures { IfOk result (λ new. new ≡ respace_marks stream.now) }
{
    let mut outer: Vec<OpenList<'_>> = Vec::new(alloc);
    let mut here = OpenList::new(stream);
    loop {
        let Some((tree, after)) = here.next() else {
            let Some(mut around) = outer.pop() else {
                return here.finish();
            };
            around.close(alloc, here)?;
            here = around;
            continue;
        };
        if let TokenTree::Group(group) = tree {
            outer.push(here)?;
            here = OpenList::new(group.stream_ref());
        } else {
            respace_next(&mut here, alloc, tree, after)?;
        }
    }
}

/// Respaces the first tree that is left of the list. It must not be a group.
fn respace_next(
    list: &mut OpenList<'_>,
    alloc: Global,
    tree: &TokenTree,
    after: &[TokenTree],
) -> Result<(), AllocError>
    requires { list.old.left ≡ tree.now ∷ after.now }
    ensures { OnOk result (Adds list.old (respaced_alone tree.now (next_token (forest after.now))) list.new) }
{
    if let TokenTree::Punct(mark) = tree {
        let spacing = kept_spacing(mark, after);
        if spacing != mark.spacing() {
            return list.replace(alloc, TokenTree::Punct(mark_as(mark, spacing)));
        }
    }
    list.keep();
    Ok(())
}

/// Returns the spacing of the mark before these trees. A `'` is Joint. Any other mark is Joint if it was and may be.
fn kept_spacing(mark: &Punct, after: &[TokenTree]) -> Spacing
    ensures { is_joint result
        ≡ is_kept_joint mark.now.mark (is_joint mark.now.spacing) (next_token (forest after.now)) }
{
    let c = mark.as_char();
    if c == '\'' || mark.spacing() == Spacing::Joint && may_be_joint(c, after) {
        Spacing::Joint
    } else {
        Spacing::Alone
    }
}

/// Returns the mark with this spacing and the same span.
pub(crate) fn mark_as(mark: &Punct, spacing: Spacing) -> Punct
    ensures { result ≡ record mark.now { spacing = spacing } }
{
    let span = mark.span();
    let mut spaced = Punct::new(mark.as_char(), spacing);
    spaced.set_span(span);
    spaced
}

/// Returns the group with these contents, and with the same delimiters and span.
pub(crate) fn with_contents(group: &Group, stream: TokenStream) -> Group
    ensures { result ≡ record group.now { stream = stream } }
{
    let mut regrouped = Group::new(group.delimiter(), stream);
    regrouped.set_span(group.span());
    regrouped
}
