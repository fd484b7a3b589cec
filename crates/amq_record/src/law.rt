//! Laws of the format.
ghost use Rattle.std.specs.Prelude.{◌≡◌, ℕ, ◌<◌, ◌^◌, ◌++◌, List, length};
ghost use Rattle.amq_model.specs.declared.record.Record.{Record};
ghost use Rattle.amq_model.specs.RecordAt.{Spot as PlainSpot, RecordAt, IsRecord, IsCompact, spelling, whole_len};

/// A spelling is read again at its place, whatever stands before and behind it.
pub fn spelling_is_read_again()
    ensures { (front back : List ℕ) (fid version compact : ℕ) (rec : Record) → IsCompact version compact → IsRecord rec →
        RecordAt (front ++ (spelling version fid compact rec ++ back)) fid version (record { place = length front; len = whole_len version rec; compact = compact; rec = rec }) }
{}

/// No spelling begins another of the same file id and version.
pub fn no_spelling_begins_another()
    ensures { (fid version c d : ℕ) (a b : Record) (back : List ℕ) → fid < 2 ^ 32 → IsCompact version c → IsRecord a → IsCompact version d → IsRecord b →
        spelling version fid c a ++ back ≡ spelling version fid d b → (c ≡ d) × (a ≡ b) }
{}

/// At one place at most one record stands.
pub fn one_record_at_a_place()
    ensures { (bytes : List ℕ) (fid version : ℕ) (s t : PlainSpot) → fid < 2 ^ 32 → RecordAt bytes fid version s → RecordAt bytes fid version t → s.place ≡ t.place → s ≡ t }
{}
