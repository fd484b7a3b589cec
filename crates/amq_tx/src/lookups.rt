//! What the tables have at an id and at a transaction.
ghost use Rattle.std.specs.Prelude.{◌≡◌, nat_eq};
ghost use Rattle.std.specs.Map.{lookup};
ghost use Rattle.std.specs.Option.{option_map};
ghost use Rattle.std.specs.HashMap.{get};
ghost use Rattle.amq_tx.specs.State.{count_of, first_but};
ghost use Rattle.amq_tx.specs.Parts.{listed, turn_of};

use crate::touches::Touches;
use crate::turn::Turn;
use amq_model::EntryEnd;
use std::collections::HashMap;

/// What the transaction does to the id, if it touches it.
pub fn end_of(touched: &HashMap<u64, Touches>, id: u64, tx: u64) -> Option<EntryEnd>
    ensures { result ≡ lookup (nat_eq tx) (listed (get nat_eq touched.now id)) }
{
    match touched.get(&id) {
        Some(touches) => touches.end_of(tx),
        None => None,
    }
}

/// The first transaction, but `except`, that touches the id.
pub fn holder_of(touched: &HashMap<u64, Touches>, id: u64, except: Option<u64>) -> Option<u64>
    ensures { result ≡ first_but except (listed (get nat_eq touched.now id)) }
{
    match touched.get(&id) {
        Some(touches) => touches.first_but(except),
        None => None,
    }
}

/// How many records the transaction has in the file, 0 where it isn't open.
pub fn count_of_turn(turns: &HashMap<u64, Turn>, tx: u64, file: u64) -> u32
    ensures { result ≡ count_of (option_map turn_of (get nat_eq turns.now tx)) file }
{
    match turns.get(&tx) {
        Some(turn) => turn.count_in(file),
        None => 0,
    }
}
