//! The end of a transaction: what its records did to ids takes effect, and the ids are let go.
ghost use Rattle.std.specs.Prelude.{◌≡◌, ◌≤◌, ◌<◌, ◌+◌, ℕ, nat_eq, ◌==◌, true, false, if◌then◌else◌, length, Some, None};
ghost use Rattle.std.specs.List.{list_any};
ghost use Rattle.std.specs.Map.{lookup};
ghost use Rattle.std.specs.HashMap.{get};
ghost use Rattle.std.specs.HashSet.{contains, spare};
ghost use Rattle.amq_tx.specs.State.{without};
ghost use Rattle.amq_tx.specs.Refusing.{live_after};
ghost use Rattle.amq_tx.specs.Parts.{listed};

use crate::lookups::end_of;
use crate::touches::Touches;
use amq_model::EntryEnd;
use std::collections::{HashMap, HashSet};

/// Puts the id among the live ones, where there is room.
pub fn make_live(live: &mut HashSet<u64>, id: u64)
    requires { 0 < spare live.old }
    ensures ids { (q : ℕ) → contains nat_eq live.new q ≡ (if id == q then true else contains nat_eq live.old q) }
    ensures room { spare live.old ≤ spare live.new + 1 }
{
    let _ = live.insert(id);
}

/// Takes the id from the live ones.
pub fn make_gone(live: &mut HashSet<u64>, id: u64)
    ensures ids { (q : ℕ) → contains nat_eq live.new q ≡ (if id == q then false else contains nat_eq live.old q) }
    ensures room { spare live.old ≤ spare live.new }
{
    live.remove(&id);
}

/// Does to the id what the transaction does to it.
fn take_effect_at(live: &mut HashSet<u64>, touched: &HashMap<u64, Touches>, id: u64, tx: u64)
    requires { 0 < spare live.old }
    ensures ids { (q : ℕ) → contains nat_eq live.new q ≡ (if id == q then live_after (lookup (nat_eq tx) (listed (get nat_eq touched.now q))) (contains nat_eq live.old q) else contains nat_eq live.old q) }
    ensures room { spare live.old ≤ spare live.new + 1 }
{
    match end_of(touched, id, tx) {
        Some(EntryEnd::Put) => make_live(live, id),
        Some(EntryEnd::Gone) => make_gone(live, id),
        None => {}
    }
}

/// Does to each of these ids what the transaction does to it.
pub fn take_effect(live: &mut HashSet<u64>, touched: &HashMap<u64, Touches>, ids: &[u64], tx: u64)
    requires { length ids.now ≤ spare live.old }
    ensures { (q : ℕ) → contains nat_eq live.new q ≡ (if list_any (nat_eq q) ids.now then live_after (lookup (nat_eq tx) (listed (get nat_eq touched.now q))) (contains nat_eq live.old q) else contains nat_eq live.old q) }
{
    for id in ids {
        take_effect_at(live, touched, *id, tx);
    }
}

/// Takes the transaction from those that touch the id.
fn let_go_of(touched: &mut HashMap<u64, Touches>, id: u64, tx: u64)
    ensures { (q : ℕ) → listed (get nat_eq touched.new q) ≡ (if id == q then without tx (listed (get nat_eq touched.old q)) else listed (get nat_eq touched.old q)) }
{
    let was_only = match touched.get_mut(&id) {
        Some(touches) => touches.remove(tx),
        None => false,
    };
    if was_only {
        touched.remove(&id);
    }
}

/// Takes the transaction from those that touch each of these ids.
pub fn let_go(touched: &mut HashMap<u64, Touches>, ids: &[u64], tx: u64)
    ensures { (q : ℕ) → listed (get nat_eq touched.new q) ≡ (if list_any (nat_eq q) ids.now then without tx (listed (get nat_eq touched.old q)) else listed (get nat_eq touched.old q)) }
{
    for id in ids {
        let_go_of(touched, *id, tx);
    }
}
