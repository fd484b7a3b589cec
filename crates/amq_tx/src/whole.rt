//! That a crash leaves no transaction in part, where what isn't durable yet lies in one file.
ghost use Rattle.std.specs.Prelude.{◌≡◌, ℕ, ◌≤◌, List, ◌++◌, [], length, All};
ghost use Rattle.amq_model.specs.declared.record.Placed.{Placed};
ghost use Rattle.amq_model.specs.declared.config.Config.{Config};
ghost use Rattle.amq_model.specs.declared.history.Step.{Step};
ghost use Rattle.amq_model.specs.Answers.{history_of};
ghost use Rattle.amq_model.specs.Legal.{AreLegalFrom};
ghost use Rattle.amq_model.specs.Kept.{IsPart, IsWhole, IsKept};

/// What is left of a front is left of the whole.
pub fn part_of_front()
    ensures { (front behind left : List Placed) → IsPart left front → IsPart left (front ++ behind) }
{}

/// Of a legal history, what is durable and any part of what was written behind it into one file have
/// no transaction in part, whatever came later.
pub fn crash_leaves_whole()
    ensures { (base : List Placed) (config : Config) (steps : List Step) (durable written later left kept : List Placed) (file : ℕ) →
        AreLegalFrom base config [] steps → history_of steps ≡ durable ++ (written ++ later) → All (λ p. p.file ≡ file) written →
        kept ≡ durable ++ left → IsPart left written → IsWhole base (history_of steps) kept }
{}

/// The same as what a crash may keep, for each receipt of at most what is durable.
pub fn crash_leaves_kept()
    ensures { (base : List Placed) (config : Config) (steps : List Step) (durable written later left kept : List Placed) (file count : ℕ) →
        AreLegalFrom base config [] steps → history_of steps ≡ durable ++ (written ++ later) → All (λ p. p.file ≡ file) written →
        kept ≡ durable ++ left → IsPart left written → count ≤ length durable → IsKept base (history_of steps) count kept }
{}

/// What is kept of a receipt is kept of each earlier one.
pub fn kept_of_earlier()
    ensures { (base history kept : List Placed) (earlier later : ℕ) → earlier ≤ later → IsKept base history later kept → IsKept base history earlier kept }
{}
