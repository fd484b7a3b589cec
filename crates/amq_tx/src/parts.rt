//! The parts of a command.
ghost use Rattle.std.specs.Prelude.{◌≡◌};
ghost use Rattle.amq_model.specs.Answers.{tx_of, id_of, is_add, works_in_tx};

use amq_model::Command;

/// The transaction that a command names.
pub fn transaction_of(command: &Command) -> Option<u64>
    ensures { result ≡ tx_of command.now }
{
    match command {
        Command::AddTx { tx, .. }
        | Command::UpdateTx { tx, .. }
        | Command::DeleteTx { tx, .. }
        | Command::Prepare { tx, .. }
        | Command::Commit { tx }
        | Command::Rollback { tx } => Some(*tx),
        _ => None,
    }
}

/// The id that a command names.
pub fn named_id(command: &Command) -> Option<u64>
    ensures { result ≡ id_of command.now }
{
    match command {
        Command::Add { id, .. }
        | Command::Update { id, .. }
        | Command::Delete { id }
        | Command::AddTx { id, .. }
        | Command::UpdateTx { id, .. }
        | Command::DeleteTx { id, .. } => Some(*id),
        _ => None,
    }
}

/// Whether it is an add, plain or of a transaction.
pub fn adds(command: &Command) -> bool
    ensures { result ≡ is_add command.now }
{
    matches!(command, Command::Add { .. } | Command::AddTx { .. })
}

/// Whether it is an add, update, delete or prepare of a transaction.
pub fn works_in_transaction(command: &Command) -> bool
    ensures { result ≡ works_in_tx command.now }
{
    matches!(
        command,
        Command::AddTx { .. }
            | Command::UpdateTx { .. }
            | Command::DeleteTx { .. }
            | Command::Prepare { .. }
    )
}
