//! What the scans of a file and of its images have to do with each other and with what was written.
ghost use Rattle.std.specs.Prelude.{◌≡◌, ℕ, ◌<◌, ◌^◌, ◌++◌, List, length, All, Contains};
ghost use Rattle.amq_model.specs.RecordAt.{Spot};
ghost use Rattle.amq_model.specs.Scan.{IsScan};
ghost use Rattle.amq_model.specs.Files.{Range, Files, Image, IsTorn, IsReading, IsImage};
ghost use Rattle.amq_model.specs.Crash.{NoFalseRecord};
ghost use Rattle.amq_model.specs.Kept.{IsPart};
ghost use Rattle.amq_scan.specs.Images.{IsLeft, IsOutside};
ghost use Rattle.amq_scan.specs.Segments.{Segment, IsDirectory, IsLeftOf};
ghost use Rattle.amq_scan.specs.Written.{Item, IsItem, IsFill, IsBehind, file_bytes, spots_from, end_from};

/// A file has one scan.
pub fn one_scan()
    ensures { (bytes : List ℕ) (fid version : ℕ) (a b : List Spot) → fid < 2 ^ 32 → IsScan bytes fid version a → IsScan bytes fid version b → a ≡ b }
{}

/// What is found in an image are records of the file, in their order.
pub fn images_hold_part()
    ensures { (pending : List Range) (reading image : List ℕ) (fid version : ℕ) (found left : List Spot) → IsLeft pending reading image fid version found left → IsPart left found }
{}

/// Each record with no pending byte is found in every image.
pub fn images_hold_durable()
    ensures { (pending : List Range) (reading image : List ℕ) (fid version : ℕ) (found left : List Spot) → IsLeft pending reading image fid version found left → All (λ s. IsOutside pending s → Contains left s) found }
{}

/// Records written one behind the other are the records of the file.
pub fn written_are_found()
    ensures { (fid version : ℕ) (header fill : List ℕ) (items : List Item) → length header ≡ 16 → All (IsItem version) items → IsFill fill →
        IsScan (file_bytes version fid header items fill) fid version (spots_from version 16 items) }
{}

/// What is written behind adds its records behind.
pub fn more_are_behind()
    ensures { (version place : ℕ) (old new : List Item) → spots_from version place (old ++ new) ≡ spots_from version place old ++ spots_from version (end_from version place old) new }
{}

/// Where only what was written last is pending, an image has all records before it, and some of these.
pub fn torn_behind()
    ensures { (pending : List Range) (image : List ℕ) (fid version : ℕ) (header fill : List ℕ) (old new : List Item) (left : List Spot) →
        length header ≡ 16 → All (IsItem version) (old ++ new) → IsFill fill → IsBehind (end_from version 16 old) pending →
        IsTorn pending (file_bytes version fid header (old ++ new) fill) image → IsScan image fid version left → All (Contains (spots_from version 16 (old ++ new))) left →
        (rest : List Spot) × (left ≡ spots_from version 16 old ++ rest) × IsPart rest (spots_from version (end_from version 16 old) new) }
{}

/// What a crash leaves of a directory of data files, where each record that is found in it was there before: no
/// fault, no control file, and of the records, in the order of the files' ids, the first `sure` ones, of which
/// nothing was pending, and behind them some of the others, in their order.
pub fn a_crash_leaves_a_part_of_a_directory()
    ensures { (wanted sure : ℕ) (gs : List Segment) (s : Files) (reading image : Image) → IsReading s reading → IsImage s image → NoFalseRecord reading image → IsDirectory wanted sure gs s → IsLeftOf wanted sure gs image }
{}
