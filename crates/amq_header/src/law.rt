//! What is written is read again.
ghost use Rattle.std.specs.Prelude.{◌≡◌, ℕ, ◌<◌, ◌≤◌, ◌^◌, ◌++◌, ◌⊎◌, List, length, take, Some, is_some};
ghost use Rattle.amq_model.specs.RecordAt.{IsBytes};
ghost use Rattle.amq_model.specs.Names.{is_temporary};
ghost use Rattle.amq_header.specs.Headers.{IsHeader, header_bytes, header_in};
ghost use Rattle.amq_header.specs.Classes.{IsOfClass, temporary_number, data_name, compacted_name, temporary_name};
ghost use Rattle.amq_header.specs.declared.header.Header.{Header};
ghost use Rattle.amq_header.specs.declared.classes.FileClass.{FileClass};
ghost use Rattle.amq_header.specs.declared.classes.FileClass.TheVariants.{DataFile, Compacted, Temporary};

/// A header that is written is read again, whatever stands behind it.
pub fn header_is_read_again()
    ensures { (header : Header) (rest : List ℕ) → IsHeader header → header_in (header_bytes header ++ rest) ≡ Some header }
{}

/// A header that is read has the spelling that stands at the head of the file.
pub fn header_is_written_again()
    ensures { (bytes : List ℕ) (header : Header) → IsBytes bytes → header_in bytes ≡ Some header → IsHeader header × (header_bytes header ≡ take 16 bytes) }
{}

/// A name has at most one class.
pub fn a_name_has_one_class()
    ensures { (name : List ℕ) (a b : FileClass) → IsOfClass name a → IsOfClass name b → a ≡ b }
{}

/// The temporary names are those of `is_temporary`.
pub fn temporary_names()
    ensures { (name : List ℕ) → is_temporary name ≡ is_some (temporary_number name) }
{}

/// Each name that is made has its class, with the number that it was made of.
pub fn made_names_have_their_class()
    ensures data { (n : ℕ) → n < 2 ^ 63 → IsOfClass (data_name n) (DataFile n) }
    ensures compacted { (n : ℕ) → n < 2 ^ 63 → IsOfClass (compacted_name n) (Compacted n) }
    ensures temporary { (n : ℕ) → n < 2 ^ 63 → IsOfClass (temporary_name n) (Temporary (Some n)) }
{}

/// Different numbers make different names.
pub fn made_names_differ()
    ensures data { (m n : ℕ) → m < 2 ^ 63 → n < 2 ^ 63 → data_name m ≡ data_name n → m ≡ n }
    ensures compacted { (m n : ℕ) → m < 2 ^ 63 → n < 2 ^ 63 → compacted_name m ≡ compacted_name n → m ≡ n }
    ensures temporary { (m n : ℕ) → m < 2 ^ 63 → n < 2 ^ 63 → temporary_name m ≡ temporary_name n → m ≡ n }
{}
