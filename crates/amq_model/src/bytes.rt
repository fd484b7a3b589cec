ghost use Rattle.std.specs.Prelude.{◌≡◌, ◌==◌, ◌<◌, ℕ, IfOk, slice_index};
ghost use Rattle.std.specs.Cmp.Lexicographic.{pointwise};
ghost use Rattle.std.proofs.Common.{rules};
ghost use Rattle.std.specs.Cmp.Rules.{comparing};

use crate::NoMemory;
use std::marker::Model;

/// Bytes that contracts see as a list: a body, or the extra bytes of a PREPARE.
#[derive(Clone, Debug, Drop)]
pub struct Bytes {
    items: Vec<u8>,
}

impl Model for Bytes {
    ghost use Rattle.std.specs.Prelude.{List, ℕ};

    ghost Value = { List ℕ };

    ghost view = { λ b. b.items.items };
}

impl Bytes {
    /// Takes the bytes as they are.
    pub fn of(bytes: Vec<u8>) -> Bytes
        ensures { result ≡ bytes.items }
    {
        Bytes { items: bytes }
    }

    /// The bytes, borrowed.
    pub fn as_slice(&self) -> &[u8]
        ensures value { result.now ≡ self.now }
        ensures bytes { (i : ℕ) → slice_index self.now i < 256 }
    {
        let bytes = self.items.as_slice();
        bytes
    }

    /// The bytes, handed back.
    pub fn into_vec(self) -> Vec<u8>
        ensures { result.items ≡ self }
    {
        let Bytes { items } = self;
        items
    }

    /// Equal bytes in memory of their own.
    pub fn copy(&self) -> Result<Bytes, NoMemory>
        ensures { IfOk result (λ b. b ≡ self.now) }
    {
        match self.items.clone() {
            Ok(items) => Ok(Bytes { items }),
            Err(_) => Err(NoMemory),
        }
    }
}

impl PartialEq for Bytes {
    ghost eq = { pointwise ◌==◌ };

    ghost laws = { Prim.search (comparing, rules) };

    fn eq(&self, other: &Bytes) -> bool {
        self.items.as_slice() == other.items.as_slice()
    }
}

impl Eq for Bytes {
    ghost laws = { Prim.search (comparing, rules) };
}
