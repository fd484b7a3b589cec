//! Laws about the definitions.
ghost use Rattle.std.specs.Prelude.{◌≡◌, ◌⊎◌, ℕ, ◌≤◌, List, ◌++◌, ◌∷◌, []};
ghost use Rattle.amq_model.specs.declared.record.Placed.{Placed};
ghost use Rattle.amq_model.specs.Effect.{in_effect, effect_of};
ghost use Rattle.amq_model.specs.Files.{Files};
ghost use Rattle.amq_model.specs.Calls.{Call, Outcome, Past, content, noted};
ghost use Rattle.amq_model.specs.Crash.{Reads, ReadsSince};
ghost use Rattle.amq_model.specs.Leaves.{Within};

/// One record more adds its effect at the end.
pub fn effect_grows()
    ensures { (l : List Placed) (p : Placed) → in_effect (l ++ p ∷ []) ≡ in_effect l ++ effect_of l p }
{}

/// What a disk reads now is one of the things that a crash may leave now.
pub fn content_may_be_left()
    ensures { (p : Past) → ReadsSince p.start p.calls p.moment p.moment (content p.start p.calls) }
{}

/// Behind a call, a crash since an earlier moment may leave what it could have left before the call, or
/// what the call makes of a reading at some moment of it.
pub fn a_call_may_leave()
    ensures { (call : Call) (outcome : Outcome) (p : Past) (t : ℕ) (s : Files) → t ≤ p.moment
        → (let now = noted call outcome p in ReadsSince now.start now.calls now.moment t s)
        → ReadsSince p.start p.calls p.moment t s ⊎ ((o : Files) × Reads p.start p.calls o × Within call o s) }
{}
