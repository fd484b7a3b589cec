//! What a table knows is that of the base and the steps behind it.
ghost use Rattle.std.specs.Prelude.{◌≡◌, List, ◌++◌, ◌∷◌, [], None};
ghost use Rattle.std.specs.List.Sorted.{IsStrictlySortedBy};
ghost use Rattle.std.specs.Ordering.{nat_cmp};
ghost use Rattle.amq_model.specs.declared.record.Placed.{Placed};
ghost use Rattle.amq_model.specs.declared.history.Step.{Step};
ghost use Rattle.amq_model.specs.declared.history.Answer.TheVariants.{Refused};
ghost use Rattle.amq_model.specs.declared.refusal.Refusal.{Refusal};
ghost use Rattle.amq_model.specs.Ids.{live_numbers};
ghost use Rattle.amq_model.specs.Open.{open_txs, highest_of};
ghost use Rattle.amq_tx.specs.State.{TxState};
ghost use Rattle.amq_tx.specs.Starting.{AreListed};
ghost use Rattle.amq_tx.specs.Follows.{Follows};

/// The live ids and the open transactions of a base ascend as a new table wants them.
pub fn base_is_listed()
    ensures live { (base : List Placed) → IsStrictlySortedBy nat_cmp (live_numbers base) }
    ensures opened { (base : List Placed) → AreListed (open_txs base) (highest_of base) }
{}

/// A refused command changes nothing that a table knows.
pub fn follows_refused()
    ensures { (s : TxState) (base : List Placed) (steps : List Step) (step : Step) (refusal : Refusal) → Follows s base steps → step.answer ≡ Refused refusal → step.placed ≡ None → Follows s base (steps ++ step ∷ []) }
{}
