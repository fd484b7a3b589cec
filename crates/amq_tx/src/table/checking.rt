//! Refusals 3 to 8, each by itself.
ghost use Rattle.std.specs.Prelude.{◌≡◌, ◌∷◌, []};
ghost use Rattle.amq_model.specs.Answers.{first_some};
ghost use Rattle.amq_tx.specs.Refusing.{refused, tx_refusal_in, held_in, id_refusal_in, spent_in, view_in, refusal_in};

use super::TxTable;
use crate::lookups::{end_of, holder_of};
use crate::parts::{adds, named_id, transaction_of, works_in_transaction};
use amq_model::{Command, EntryEnd, Refusal};

/// The highest transaction number, at which no further one is given.
const NUMBERS_END: u64 = (1 << 63) - 1;

impl TxTable {
    ghost use Rattle.amq_tx.specs.Tables.{state_of};

    /// The first refusal in their order.
    pub fn try_refusals(&self, command: &Command) -> Result<(), Refusal>
        ensures { refused result ≡ refusal_in (state_of self.now) command.now }
    {
        self.check_transaction(command)?;
        self.check_id(command)?;
        self.check_numbers(command)
    }

    /// `NoTx` and `TxPrepared`.
    fn check_transaction(&self, command: &Command) -> Result<(), Refusal>
        ensures { refused result ≡ tx_refusal_in (state_of self.now) command.now }
    {
        let Some(tx) = transaction_of(command) else {
            return Ok(());
        };
        match self.turns.get(&tx) {
            None => Err(Refusal::NoTx { tx }),
            Some(turn) if turn.prepared && works_in_transaction(command) => {
                Err(Refusal::TxPrepared { tx })
            }
            Some(_) => Ok(()),
        }
    }

    /// `Held`, `AlreadyLive` and `NoRecord`.
    fn check_id(&self, command: &Command) -> Result<(), Refusal>
        ensures { refused result ≡ first_some (held_in (state_of self.now) command.now ∷ id_refusal_in (state_of self.now) command.now ∷ []) }
    {
        let Some(id) = named_id(command) else {
            return Ok(());
        };
        let own = transaction_of(command);
        if let Some(tx) = holder_of(&self.touched, id, own) {
            return Err(Refusal::Held { id, tx });
        }
        match (self.is_live_for(id, own), adds(command)) {
            (true, true) => Err(Refusal::AlreadyLive { id }),
            (false, false) => Err(Refusal::NoRecord { id }),
            _ => Ok(()),
        }
    }

    /// `TxNumbersSpent`.
    fn check_numbers(&self, command: &Command) -> Result<(), Refusal>
        ensures { refused result ≡ spent_in (state_of self.now) command.now }
    {
        match command {
            Command::Begin if self.highest >= NUMBERS_END => Err(Refusal::TxNumbersSpent {
                highest: self.highest,
            }),
            _ => Ok(()),
        }
    }

    /// Whether the id is live in the view of a command of this transaction, or of a plain one.
    fn is_live_for(&self, id: u64, own: Option<u64>) -> bool
        ensures { result ≡ view_in (state_of self.now) own id }
    {
        let end = match own {
            Some(tx) => end_of(&self.touched, id, tx),
            None => None,
        };
        match end {
            Some(EntryEnd::Put) => true,
            Some(EntryEnd::Gone) => false,
            None => self.live.contains(&id),
        }
    }
}
