ghost use Rattle.std.specs.Prelude.{◌≡◌, ◌==◌, ◌↔◌, IfOk, IfSome, IsSome};
ghost use Rattle.std.specs.Cmp.Lexicographic.{pointwise, slice_cmp};
ghost use Rattle.std.specs.Ordering.{nat_cmp, as_partial_cmp};
ghost use Rattle.std.specs.Cmp.{partial_order_from_own_ties};
ghost use Rattle.std.proofs.Common.{rules};
ghost use Rattle.std.specs.Cmp.Rules.{comparing};
ghost use Rattle.amq_model.specs.Name.{HasNameForm};

use crate::NoMemory;
use std::alloc::Global;
use std::cmp::Ordering;
use std::marker::Model;

/// The name of a file: a text of 1 to 255 ASCII bytes, ordered by its bytes.
#[derive(Clone, Debug, Drop)]
pub struct Name {
    text: String,
}

impl Model for Name {
    ghost use Rattle.std.specs.Prelude.{List, ℕ};
    ghost use Rattle.std.specs.String.{string_bytes};
    ghost use Rattle.amq_model.specs.Name.{HasNameForm};

    ghost Value = { List ℕ };

    ghost view = { λ n. string_bytes n.text };

    ghost invariant = { λ n. HasNameForm (string_bytes n.text) };
}

impl Name {
    /// The name with this text; `None` exactly where the text isn't of that form.
    pub fn of(alloc: Global, text: &str) -> Result<Option<Name>, NoMemory>
        ensures form { IfOk result (λ o. IsSome o ↔ HasNameForm text.now) }
        ensures value { IfOk result (λ o. IfSome o (λ n. n ≡ text.now)) }
    {
        if text.is_empty() || text.len() > 255 || !text.is_ascii() {
            return Ok(None);
        }
        match String::from_str(alloc, text) {
            Ok(text) => Ok(Some(Name { text })),
            Err(_) => Err(NoMemory),
        }
    }

    /// The text.
    pub fn as_str(&self) -> &str
        ensures text { result.now ≡ self.now }
        ensures form { HasNameForm self.now }
    {
        self.text.as_str()
    }

    /// An equal name in memory of its own.
    pub fn copy(&self) -> Result<Name, NoMemory>
        ensures { IfOk result (λ n. n ≡ self.now) }
    {
        match self.text.clone() {
            Ok(text) => Ok(Name { text }),
            Err(_) => Err(NoMemory),
        }
    }
}

impl PartialEq for Name {
    ghost eq = { pointwise ◌==◌ };

    ghost laws = { Prim.search (comparing, rules) };

    fn eq(&self, other: &Name) -> bool {
        self.text.as_bytes() == other.text.as_bytes()
    }
}

impl Eq for Name {
    ghost laws = { Prim.search (comparing, rules) };
}

impl Ord for Name {
    ghost cmp = { slice_cmp nat_cmp };

    ghost total = { Prim.search (comparing, rules) };

    ghost matches_partial_cmp = { Prim.search (comparing, rules) };

    ghost matches_eq = { Prim.search (comparing, rules) };

    fn cmp(&self, other: &Name) -> Ordering {
        self.text.as_bytes().cmp(other.text.as_bytes())
    }
}

impl PartialOrd for Name {
    ghost partial_cmp = { as_partial_cmp (slice_cmp nat_cmp) };

    ghost laws = { partial_order_from_own_ties (Prim.search (comparing, rules)) (Prim.search (comparing, rules)) };

    fn partial_cmp(&self, other: &Name) -> Option<Ordering> {
        Some(self.cmp(other))
    }
}
