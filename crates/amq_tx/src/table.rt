//! The table of ids and open transactions.
ghost use Rattle.std.specs.Prelude.{◌≡◌, ◌≤◌, ℕ, nat_eq, true, List, ◌++◌, ◌∷◌, [], slice_get, None, IfOk, OnOk};
ghost use Rattle.std.specs.List.{list_any};
ghost use Rattle.std.specs.List.Sorted.{IsStrictlySortedBy};
ghost use Rattle.std.specs.Option.{is_some};
ghost use Rattle.std.specs.Ordering.{nat_cmp};
ghost use Rattle.std.specs.Map.{lookup};
ghost use Rattle.std.specs.HashMap.{get};
ghost use Rattle.amq_model.specs.declared.record.Placed.{Placed};
ghost use Rattle.amq_model.specs.declared.history.Step.{Step};
ghost use Rattle.amq_model.specs.Effect.{counted};
ghost use Rattle.amq_model.specs.Answers.{history_of, holders};
ghost use Rattle.amq_model.specs.Ids.{live_numbers};
ghost use Rattle.amq_model.specs.Open.{open_txs, highest_of};
ghost use Rattle.amq_tx.specs.State.{count_of};
ghost use Rattle.amq_tx.specs.Parts.{listed, ids_of};
ghost use Rattle.amq_tx.specs.Refusing.{refused, holder_in, refusal_in};
ghost use Rattle.amq_tx.specs.Applying.{state_after, number_given, CountFits};
ghost use Rattle.amq_tx.specs.Starting.{AreListed, started};
ghost use Rattle.amq_tx.specs.Follows.{Follows, AreBelow, IsAccepted, refusal_of, number_of_begin};

mod applying;
mod checking;
mod reserving;

use crate::lookups::{count_of_turn, holder_of};
use crate::opening::{live_from, touched_from, turns_from};
use crate::touches::Touches;
use crate::turn::Turn;
use amq_model::{Command, NoMemory, OpenTx, Refusal};
use std::alloc::Global;
use std::collections::{HashMap, HashSet};

/// The live ids and the open transactions of a journal.
#[derive(Drop)]
pub struct TxTable {
    alloc: Global,
    live: HashSet<u64>,
    touched: HashMap<u64, Touches>,
    turns: HashMap<u64, Turn>,
    highest: u64,
    ghost ids: { (tx id : ℕ) → is_some (lookup (nat_eq tx) (listed (get nat_eq touched id))) ≡ true → list_any (nat_eq id) (ids_of (get nat_eq turns tx)) ≡ true },
    ghost numbers: { (tx : ℕ) → is_some (get nat_eq turns tx) ≡ true → tx ≤ highest },
}

impl TxTable {
    ghost use Rattle.amq_tx.specs.Tables.{state_of, HasRoom};

    /// The table of a journal that begins with these live ids, these open transactions and this highest
    /// number. The lists ascend, as a load gives them.
    pub fn new(
        alloc: Global,
        live: Vec<u64>,
        opened: Vec<OpenTx>,
        highest: u64,
    ) -> Result<TxTable, NoMemory>
        requires live { IsStrictlySortedBy nat_cmp live.items }
        requires opened { AreListed opened.items highest }
        ensures state { IfOk result (λ t. state_of t ≡ started live.items opened.items highest) }
        ensures follows { IfOk result (λ t. (base : List Placed) → live.items ≡ live_numbers base → opened.items ≡ open_txs base → highest ≡ highest_of base → Follows (state_of t) base []) }
    {
        Ok(TxTable {
            alloc,
            live: live_from(alloc, &live)?,
            touched: touched_from(alloc, &opened)?,
            turns: turns_from(alloc, &opened)?,
            highest,
        })
    }

    /// Refusals 3 to 8 of the command, the first of them in their order: `NoTx`, `TxPrepared`, `Held`,
    /// `AlreadyLive`, `NoRecord`, `TxNumbersSpent`. Takes no memory.
    pub fn check(&self, command: &Command) -> Result<(), Refusal>
        ensures state { refused result ≡ refusal_in (state_of self.now) command.now }
        ensures journal { (base : List Placed) (steps : List Step) → Follows (state_of self.now) base steps → refused result ≡ refusal_of base steps command.now }
    {
        self.try_refusals(command)
    }

    /// The least open transaction, but `except`, that has an add, update or delete of the id with no end
    /// behind it. Takes no memory.
    pub fn holder(&self, id: u64, except: Option<u64>) -> Option<u64>
        ensures state { result ≡ holder_in (state_of self.now) id except }
        ensures journal { (base : List Placed) (steps : List Step) → Follows (state_of self.now) base steps → result ≡ slice_get (holders base steps except id) 0 }
    {
        holder_of(&self.touched, id, except)
    }

    /// How many adds, updates and deletes the open transaction has in the file, which stands above those
    /// of the base; 0 where it isn't open. Takes no memory.
    pub fn count_in(&self, tx: u64, file: u64) -> u32
        ensures state { result ≡ count_of ((state_of self.now).turns tx) file }
        ensures journal { (base : List Placed) (steps : List Step) → Follows (state_of self.now) base steps → AreBelow file base → result ≡ counted (base ++ history_of steps) tx file }
    {
        count_of_turn(&self.turns, tx, file)
    }

    /// Makes room for what the command adds. What the table tells stays, whatever it answers.
    pub fn reserve(&mut self, command: &Command) -> Result<(), NoMemory>
        ensures state { state_of self.new ≡ state_of self.old }
        ensures room { OnOk result (HasRoom self.new command.now) }
    {
        self.make_room(command)
    }

    /// Takes in a command that `check` accepted, after `reserve`; its record, if it has one, stands in
    /// `file`. The answer is the number given to a `Begin`. Takes no memory.
    pub fn apply(&mut self, command: &Command, file: u64) -> Option<u64>
        requires checked { refusal_in (state_of self.old) command.now ≡ None }
        requires reserved { HasRoom self.old command.now }
        requires count { CountFits (state_of self.old) command.now file }
        ensures state { state_of self.new ≡ state_after command.now file (state_of self.old) }
        ensures follows { (base : List Placed) (steps : List Step) (s : Step) → Follows (state_of self.old) base steps → IsAccepted base steps command.now file s → Follows (state_of self.new) base (steps ++ s ∷ []) }
        ensures number { result ≡ number_given (state_of self.old) command.now }
        ensures journal { (base : List Placed) (steps : List Step) → Follows (state_of self.old) base steps → result ≡ number_of_begin base steps command.now }
    {
        self.take_in(command, file)
    }
}
