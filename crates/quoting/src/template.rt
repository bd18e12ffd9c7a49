//! The calls of `Quote` that fill a template.
ghost use Rattle.std.specs.Prelude.{◌≡◌, ◌↔◌, IfErr, Ok, Err, OnErr, OnOk, length};
ghost use Rattle.std.specs.Str.{chars};
ghost use Rattle.proc_macro2.specs.Files.{Fits, next_lo};
ghost use Rattle.proc_macro2.specs.Forest.{Forest, chain};
ghost use Rattle.proc_macro2.specs.Parsing.{ParsesTo};
ghost use Rattle.quoting.specs.Filled.{fill_template};
ghost use Rattle.quoting.specs.Given.{UnlessMemory, named_all};
ghost use Rattle.quoting.specs.TextFault.{IsTextFault, LeavesMap};

use crate::errors::TemplateError;
use crate::fill::fill_template;
use crate::holes::Hole;
use crate::owned::filled_in_place;
use crate::quote::Quote;
use proc_macro2::{ParseError, SourceMap, TokenStream};

/// The number of groups that may be nested in a template.
const DEPTH_LIMIT: usize = 64;

impl Quote {
    /// Fills the holes of the template and adds its trees at the end of the quote (rule `filled`).
    ///
    /// `#name` and `#0` are replaced by the value of the first hole of that name. `#( .. )*` is replaced by one turn
    /// for each value of the lists that are named inside. `#( .. ),*` also puts the mark between two turns. In a turn
    /// each list is its value for the turn, also in the repetitions inside. So a list is used up by the outermost
    /// repetition that names it, and a repetition inside needs a list of lists.
    ///
    /// All other trees are kept with their spans, any other `#` too. Groups are filled inside. A mark right before a
    /// hole or a repetition becomes Alone, so that it does not join with the trees that replace it.
    ///
    /// Fails with the template's first error (`TemplateError`), or if memory runs out. Then the quote is unchanged.
    ///
    /// With the lists `x` of `a` and `y` of `b`, `#( #x: #y ),*` gives `a : b`. Without a hole `y` the error is
    /// `NoHole` at `y`. Without both holes it is `NoList` at the parentheses.
    pub fn fill(&mut self, template: &TokenStream, holes: &[Hole<'_>]) -> Result<(), TemplateError>
        ensures ok { OnOk result ((stream : Forest) × (fill_template (named_all holes.now) template.now ≡ Ok stream)
            × (self.new ≡ chain self.old stream)) }
        ensures fault { IfErr result (λ fault.
            UnlessMemory fault (fill_template (named_all holes.now) template.now ≡ Err fault)) }
        ensures kept { OnErr result (self.new ≡ self.old) }
    {
        let stream = fill_template(self.alloc(), template, holes, &[], DEPTH_LIMIT)?;
        self.push_stream(stream)?;
        Ok(())
    }

    /// Parses the text of a template, fills its holes, and adds its trees at the end of the quote, as `fill` does.
    ///
    /// The text becomes the next file of the map, and the template's spans are in that file.
    ///
    /// Fails with `Parse(Lex)` if the text has a syntax error. It fails with `Parse(MapFull)` exactly if the text would
    /// end past the map's limit, and with `Parse(Memory)` if memory runs out during parsing. Any other error is one of
    /// `fill`. After an error the quote is unchanged. The map is unchanged only after `Parse(MapFull)` and
    /// `Parse(Memory)`; otherwise the text is its next file.
    ///
    /// If the hole `name` has the value `x`, `fn #name() {}` gives `fn x() {}`.
    pub fn parse(
        &mut self,
        template: &str,
        map: &mut SourceMap,
        holes: &[Hole<'_>],
    ) -> Result<(), TemplateError>
        ensures ok { OnOk result ((trees : Forest) × (stream : Forest)
            × ParsesTo (next_lo map.old) (chars template.now) trees
            × (fill_template (named_all holes.now) trees ≡ Ok stream) × (self.new ≡ chain self.old stream)) }
        ensures fault { IfErr result (IsTextFault (next_lo map.old) (chars template.now) (named_all holes.now)) }
        ensures map_full { (result ≡ Err (TemplateError.Parse ParseError.MapFull))
            ↔ (Fits map.old (length (chars template.now)) → ⊥) }
        ensures map { LeavesMap map.old (chars template.now) map.new result }
        ensures kept { OnErr result (self.new ≡ self.old) }
    {
        let template = TokenStream::from_str(template, map)?;
        let stream = filled_in_place(self.alloc(), template, holes, DEPTH_LIMIT)?;
        self.push_stream(stream)?;
        Ok(())
    }
}
