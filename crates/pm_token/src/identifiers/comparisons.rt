//! Equality, order and hash of identifiers. All three use the bytes of an identifier as it is written.
ghost use Rattle.std.specs.Prelude.{◌≡◌, ◌↔◌, ◌∷◌, ◌++◌, [], IsTrue, Some, fold, refl};
ghost use Rattle.std.specs.Cmp.{on_equiv, on_per, on_po, on_total, partial_equiv_from_equiv};
ghost use Rattle.std.specs.Cmp.Lexicographic.{nat_list_cmp_total, nat_list_eq_equiv, texts_po, texts_ties};
ghost use Rattle.std.specs.List.{concat};
ghost use Rattle.pm_token.specs.Spelling.{fed_alike, fed_for, name_cmp, name_eq, name_text, spelling};

use super::Ident;
use std::cmp::Ordering;
use std::hash::{Hash, Hasher};

impl PartialEq for Ident {
    ghost eq = { name_eq };

    ghost laws = { on_per spelling (partial_equiv_from_equiv nat_list_eq_equiv) };

    /// Returns whether both have the same name, and are both raw or both plain (`identifier-equality`). Spans
    /// are ignored.
    #[inline(always)]
    fn eq(&self, other: &Ident) -> bool
        ensures value { result ≡ name_eq self.now other.now }
        ensures fields { IsTrue result ↔ ((self.now.name ≡ other.now.name) × (self.now.raw ≡ other.now.raw)) }
        ensures text { IsTrue result ↔ (name_text self.now ≡ name_text other.now) }
    {
        self.name.same(&other.name)
    }
}

impl Eq for Ident {
    ghost laws = { on_equiv spelling nat_list_eq_equiv };
}

impl PartialOrd for Ident {
    ghost partial_cmp = { λ a b. Some (name_cmp a b) };

    ghost laws = { on_po spelling texts_po };

    fn partial_cmp(&self, other: &Ident) -> Option<Ordering> {
        Some(self.cmp(other))
    }
}

impl Ord for Ident {
    ghost cmp = { name_cmp };

    ghost total = { on_total spelling nat_list_cmp_total };

    ghost matches_partial_cmp = { λ a b. refl };

    ghost matches_eq = { λ a b. texts_ties (spelling a) (spelling b) };

    /// Compares the bytes of both identifiers as they are written (`identifier-order`): `r`, then raw `a`, then
    /// `ra`.
    fn cmp(&self, other: &Ident) -> Ordering
        ensures value { result ≡ name_cmp self.now other.now }
        ensures equal { (result ≡ Ordering.Equal) ↔ (name_text self.now ≡ name_text other.now) }
    {
        let name = self.name.as_str();
        let other_name = other.name.as_str();
        let raw = self.name.is_raw();
        if raw == other.name.is_raw() {
            return name.cmp(other_name);
        }
        // A plain name has no `#`, so its first two characters decide.
        if raw {
            "r#".cmp(other_name)
        } else {
            name.cmp("r#")
        }
    }
}

impl Hash for Ident {
    ghost hash_input = { λ ident. fed_for (spelling ident) };

    ghost respects_eq = { fed_alike };

    /// Feeds the hasher what the text of the identifier would, but `r#` in a separate write
    /// (`identifier-hash`).
    fn hash<H: Hasher>(&self, state: &mut H)
        ensures value { state.new ≡ fold H.write state.old (fed_for (spelling self.now)) }
        ensures text { concat (fed_for (spelling self.now)) ≡ spelling self.now ++ 255 ∷ [] }
    {
        let name = self.name.as_str();
        if self.name.is_raw() {
            state.write(b"r#");
        }
        name.hash(state);
    }
}
