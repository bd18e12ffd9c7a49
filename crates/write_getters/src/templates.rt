//! The templates of the code for a struct.
ghost use Rattle.std.specs.Prelude.{◌≡◌, IfOk};
ghost use Rattle.std.specs.Str.{chars};
ghost use Rattle.write_getters.specs.Templates.{IsTemplate, template_for};

use crate::errors::WriteError;
use messages::Failure;
use proc_macro2::{SourceMap, TokenStream, TokenTree};
use std::alloc::Global;

/// The code for a struct without generic parameters.
pub const PLAIN: &str = "impl #name #bounds {
    #( pub fn #field(&self) -> &#kind { &self.#field } )*
}";

/// The code for a struct with generic parameters.
pub const GENERIC: &str = "impl< #( #parameter ),* > #name< #( #argument ),* > #bounds {
    #( pub fn #field(&self) -> &#kind { &self.#field } )*
}";

/// The templates.
#[derive(Drop)]
pub struct Templates {
    /// The template for structs without generic parameters.
    pub plain: TokenStream,
    /// The template for structs with generic parameters.
    pub generic: TokenStream,
}

impl Templates {
    /// Parses the templates. The only error is that memory runs out.
    pub fn new(alloc: Global) -> Result<Templates, WriteError>
        ensures plain { IfOk result (λ templates. IsTemplate (chars PLAIN.now) templates.plain) }
        ensures generic { IfOk result (λ templates. IsTemplate (chars GENERIC.now) templates.generic) }
    {
        Ok(Templates {
            plain: parse_template(alloc, PLAIN)?,
            generic: parse_template(alloc, GENERIC)?,
        })
    }

    /// Returns the template for a struct with these generic parameters, which are given in their brackets.
    pub fn of(&self, generics: &[TokenTree]) -> &TokenStream
        ensures { result.now ≡ template_for generics.now self.now }
    {
        if generics.is_empty() {
            &self.plain
        } else {
            &self.generic
        }
    }
}

fn parse_template(alloc: Global, template: &str) -> Result<TokenStream, WriteError>
    ensures { IfOk result (IsTemplate (chars template.now)) }
{
    let mut map = SourceMap::new(alloc);
    match TokenStream::from_str(template, &mut map) {
        Ok(stream) => Ok(stream),
        Err(error) => Err(WriteError::from(Failure::parse_failure(error, &map))),
    }
}
