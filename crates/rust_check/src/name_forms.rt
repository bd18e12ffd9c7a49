//! The names of a text by their normal form NFKC.
ghost use Rattle.std.specs.Prelude.{◌≡◌, ◌∷◌, [], List, ℕ, IfOk};
ghost use Rattle.std.specs.Str.{chars};
ghost use Rattle.rust_check.specs.NameForms.{AreFirst, is_other};

use std::alloc::{AllocError, Global};
use std::collections::HashMap;
use unicode_normalization::to_nfkc;

/// The names that were seen so far. For each NFKC form the first name is kept.
#[derive(Drop)]
pub struct NameForms {
    /// The first name of each form.
    pub first: HashMap<String, String>,
}

impl NameForms {
    /// Returns the names before any name is seen.
    pub fn new(alloc: Global) -> NameForms
        ensures { AreFirst result.first [] }
    {
        NameForms {
            first: HashMap::new(alloc),
        }
    }

    /// Takes one more name, and returns whether another name with the same form was first.
    pub fn take(&mut self, alloc: Global, name: &str) -> Result<bool, AllocError>
        ensures { IfOk result (λ is. (names : List (List ℕ)) → AreFirst self.old.first names
            → (is ≡ is_other (chars name.now) names) × AreFirst self.new.first (chars name.now ∷ names)) }
    {
        let form = to_nfkc(alloc, name)?;
        if let Some(first) = self.first.get(form.as_str()) {
            return Ok(first.as_str() != name);
        }
        let name = String::from_str(alloc, name)?;
        self.first.insert(form, name)?;
        Ok(false)
    }
}
