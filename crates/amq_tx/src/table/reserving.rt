//! Room for what a command adds.
ghost use Rattle.std.specs.Prelude.{◌≡◌, ◌≤◌, nat_eq, true, length, OnOk};
ghost use Rattle.std.specs.HashMap.{get};
ghost use Rattle.amq_tx.specs.Parts.{ids_of};

use super::TxTable;
use amq_model::{Command, NoMemory};

impl TxTable {
    ghost use Rattle.std.specs.HashSet as bag;
    ghost use Rattle.amq_tx.specs.Tables.{state_of, HasRoom, ChangeHasRoom};

    /// Makes room for what the command adds.
    pub fn make_room(&mut self, command: &Command) -> Result<(), NoMemory>
        ensures state { state_of self.new ≡ state_of self.old }
        ensures room { OnOk result (HasRoom self.new command.now) }
    {
        let made = match command {
            Command::Add { .. } => self.live.reserve(1).is_ok(),
            Command::Begin => self.turns.reserve(1).is_ok(),
            Command::AddTx { tx, .. }
            | Command::UpdateTx { tx, .. }
            | Command::DeleteTx { tx, .. } => self.reserve_change(*tx),
            Command::Commit { tx } => self.reserve_commit(*tx),
            Command::Update { .. }
            | Command::Delete { .. }
            | Command::Prepare { .. }
            | Command::Rollback { .. }
            | Command::Flush => true,
        };
        if made { Ok(()) } else { Err(NoMemory) }
    }

    /// Makes room for a record of the transaction.
    fn reserve_change(&mut self, tx: u64) -> bool
        ensures state { state_of self.new ≡ state_of self.old }
        ensures room { result ≡ true → ChangeHasRoom self.new tx }
    {
        if self.touched.reserve(1).is_err() {
            return false;
        }
        match self.turns.get_mut(&tx) {
            Some(turn) => turn.reserve().is_ok(),
            None => true,
        }
    }

    /// Makes room for the live ids of a COMMIT.
    fn reserve_commit(&mut self, tx: u64) -> bool
        ensures state { state_of self.new ≡ state_of self.old }
        ensures room { result ≡ true → length (ids_of (get nat_eq self.new.turns tx)) ≤ bag.spare self.new.live }
    {
        let ids = match self.turns.get(&tx) {
            Some(turn) => turn.ids.len(),
            None => 0,
        };
        self.live.reserve(ids).is_ok()
    }
}
