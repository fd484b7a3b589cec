//! What an accepted command makes of the table, each kind by itself.
ghost use Rattle.std.specs.Prelude.{◌≡◌, ◌≤◌, ◌<◌, ◌+◌, ◌-◌, ◌^◌, nat_eq, true, Some, None, length};
ghost use Rattle.std.specs.Option.{is_some};
ghost use Rattle.std.specs.HashMap.{get, spare};
ghost use Rattle.amq_tx.specs.State.{count_of, first_but};
ghost use Rattle.amq_tx.specs.Parts.{listed, ids_of};
ghost use Rattle.amq_tx.specs.Refusing.{refusal_in};
ghost use Rattle.amq_tx.specs.Applying.{state_after, with_begin, with_change, with_prepare, with_commit, with_rollback, number_given, CountFits};

use super::TxTable;
use crate::changing::{self, count_record, hold_alone};
use crate::ending::{let_go, make_gone, make_live, take_effect};
use crate::turn::Turn;
use amq_model::{Command, EntryEnd};

impl TxTable {
    ghost use Rattle.std.specs.HashSet as bag;
    ghost use Rattle.amq_tx.specs.Tables.{state_of, HasRoom, ChangeHasRoom};

    /// Takes in an accepted command, for which there is room.
    pub fn take_in(&mut self, command: &Command, file: u64) -> Option<u64>
        requires checked { refusal_in (state_of self.old) command.now ≡ None }
        requires reserved { HasRoom self.old command.now }
        requires count { CountFits (state_of self.old) command.now file }
        ensures state { state_of self.new ≡ state_after command.now file (state_of self.old) }
        ensures number { result ≡ number_given (state_of self.old) command.now }
    {
        match command {
            Command::Add { id, .. } => make_live(&mut self.live, *id),
            Command::Delete { id } => make_gone(&mut self.live, *id),
            Command::Begin => return Some(self.begin()),
            Command::AddTx { tx, id, .. } | Command::UpdateTx { tx, id, .. } => {
                self.change(*tx, *id, EntryEnd::Put, file)
            }
            Command::DeleteTx { tx, id, .. } => self.change(*tx, *id, EntryEnd::Gone, file),
            Command::Prepare { tx, .. } => self.prepare(*tx),
            Command::Commit { tx } => self.commit(*tx),
            Command::Rollback { tx } => self.roll_back(*tx),
            Command::Update { .. } | Command::Flush => {}
        }
        None
    }

    /// Opens a transaction under the next number.
    fn begin(&mut self) -> u64
        requires room { 0 < spare self.old.turns }
        requires left { self.old.highest < 2 ^ 63 - 1 }
        ensures state { state_of self.new ≡ with_begin (state_of self.old) }
        ensures number { result ≡ self.old.highest + 1 }
    {
        let tx = self.highest + 1;
        let turn = Turn::new(self.alloc, false, Vec::new(self.alloc));
        self.highest = tx;
        let _ = self.turns.insert(tx, turn);
        tx
    }

    /// Takes in an add, update or delete of a transaction, of an id that no other one touches.
    fn change(&mut self, tx: u64, id: u64, end: EntryEnd, file: u64)
        requires open { is_some (get nat_eq self.old.turns tx) ≡ true }
        requires free { first_but (Some tx) (listed (get nat_eq self.old.touched id)) ≡ None }
        requires room { ChangeHasRoom self.old tx }
        requires fits { count_of ((state_of self.old).turns tx) file < 2 ^ 32 - 1 }
        ensures { state_of self.new ≡ with_change tx id end file (state_of self.old) }
    {
        let new_id = changing::new_id(&self.touched, id);
        hold_alone(self.alloc, &mut self.touched, id, tx, end);
        count_record(&mut self.turns, tx, file, new_id);
    }

    /// Takes in a PREPARE.
    fn prepare(&mut self, tx: u64)
        ensures { state_of self.new ≡ with_prepare tx (state_of self.old) }
    {
        if let Some(turn) = self.turns.get_mut(&tx) {
            turn.prepared = true;
        }
    }

    /// Ends the transaction, whose records take effect.
    fn commit(&mut self, tx: u64)
        requires { length (ids_of (get nat_eq self.old.turns tx)) ≤ bag.spare self.old.live }
        ensures { state_of self.new ≡ with_commit tx (state_of self.old) }
    {
        if let Some(turn) = self.turns.remove(&tx) {
            take_effect(&mut self.live, &self.touched, &turn.ids, tx);
            let_go(&mut self.touched, &turn.ids, tx);
        }
    }

    /// Ends the transaction without effect.
    fn roll_back(&mut self, tx: u64)
        ensures { state_of self.new ≡ with_rollback tx (state_of self.old) }
    {
        if let Some(turn) = self.turns.remove(&tx) {
            let_go(&mut self.touched, &turn.ids, tx);
        }
    }
}
