//! One add, update or delete more of a transaction.
ghost use Rattle.std.specs.Prelude.{◌≡◌, ◌<◌, ◌-◌, ◌^◌, ◌++◌, ◌∷◌, ℕ, nat_eq, ◌==◌, true, [], Some, None, if◌then◌else◌};
ghost use Rattle.std.specs.Option.{option_map, option_to_list, is_some};
ghost use Rattle.std.specs.HashMap.{get, spare};
ghost use Rattle.amq_tx.specs.State.{count_of};
ghost use Rattle.amq_tx.specs.Applying.{one_more};
ghost use Rattle.amq_tx.specs.Parts.{listed, turn_of, ids_of, TurnHasRoom};

use crate::touches::Touches;
use crate::turn::Turn;
use amq_model::EntryEnd;
use std::alloc::Global;
use std::collections::HashMap;

/// The id, if no transaction touches it.
pub fn new_id(touched: &HashMap<u64, Touches>, id: u64) -> Option<u64>
    ensures { result ≡ (if is_some (get nat_eq touched.now id) then None else Some id) }
{
    if touched.contains_key(&id) {
        None
    } else {
        Some(id)
    }
}

/// Makes the transaction the only one that touches the id, where there is room.
pub fn hold_alone(
    alloc: Global,
    touched: &mut HashMap<u64, Touches>,
    id: u64,
    tx: u64,
    end: EntryEnd,
)
    requires { 0 < spare touched.old }
    ensures { (q : ℕ) → listed (get nat_eq touched.new q) ≡ (if id == q then (tx, end) ∷ [] else listed (get nat_eq touched.old q)) }
{
    let _ = touched.insert(id, Touches::of(alloc, tx, end));
}

/// Counts a record more of the transaction in the file. `new_id` is the id, if the transaction didn't
/// touch it before.
pub fn count_record(turns: &mut HashMap<u64, Turn>, tx: u64, file: u64, new_id: Option<u64>)
    requires open { is_some (get nat_eq turns.old tx) ≡ true }
    requires room { TurnHasRoom (get nat_eq turns.old tx) }
    requires fits { count_of (option_map turn_of (get nat_eq turns.old tx)) file < 2 ^ 32 - 1 }
    ensures turns { (q : ℕ) → option_map turn_of (get nat_eq turns.new q) ≡ (if tx == q then option_map (one_more file) (option_map turn_of (get nat_eq turns.old q)) else option_map turn_of (get nat_eq turns.old q)) }
    ensures ids { (q : ℕ) → ids_of (get nat_eq turns.new q) ≡ (if tx == q then ids_of (get nat_eq turns.old q) ++ option_to_list new_id else ids_of (get nat_eq turns.old q)) }
{
    if let Some(turn) = turns.get_mut(&tx) {
        turn.count(file);
        if let Some(id) = new_id {
            turn.add_id(id);
        }
    }
}
