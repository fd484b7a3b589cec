ghost use Rattle.std.specs.Prelude.{◌≡◌, ◌++◌, [], map, take, vec_len, IfOk, OnOk, OnErr};
ghost use Rattle.amq_model.specs.Effect.{result_of};
ghost use Rattle.amq_model.specs.Ids.{live_numbers};
ghost use Rattle.amq_model.specs.Open.{open_txs, highest_of};
ghost use Rattle.amq_state.specs.Fed.{placed_of, AreBelow};

use crate::numbers::{each_once, ids_of};
use crate::open::open_from;
use crate::tables::{tables_from, tables_of};
use amq_model::{Items, LoadState, NoMemory, OpenTx, Placed};
use amq_record::Spot;
use std::alloc::Global;
use std::marker::Model;

/// What the records of a load mean.
#[derive(Debug, Drop)]
pub struct Summary {
    /// The live records and the transactions in doubt.
    pub state: LoadState,
    /// The ids of the live records, each once, ascending.
    pub live: Items<u64>,
    /// The open transactions, by number: those with an add, update, delete or PREPARE that has no end
    /// behind it.
    pub open_txs: Items<OpenTx>,
    /// The highest transaction number of a record, 0 where there is none.
    pub highest_tx: u64,
}

/// A load under way: contracts see it as the list of the records that it was fed.
#[derive(Debug, Drop)]
pub struct Loading {
    alloc: Global,
    list: Vec<Placed>,
}

impl Model for Loading {
    ghost use Rattle.std.specs.Prelude.{List};
    ghost use Rattle.amq_model.specs.declared.record.Placed.{Placed};

    ghost Value = { List Placed };

    ghost view = { λ l. l.list.items };
}

impl Loading {
    /// A load that was fed nothing yet.
    pub fn new(alloc: Global) -> Loading
        ensures { result ≡ [] }
    {
        Loading {
            alloc,
            list: Vec::new(alloc),
        }
    }

    /// A load that was fed these records.
    pub fn of_records(alloc: Global, records: Vec<Placed>) -> Loading
        ensures { result ≡ records.items }
    {
        Loading {
            alloc,
            list: records,
        }
    }

    /// Takes in the records of one file, which come behind those of lesser files. After `NoMemory` it is
    /// unchanged.
    pub fn feed_file(&mut self, file: u64, spots: &[Spot<'_>]) -> Result<(), NoMemory>
        requires { AreBelow file self.old }
        ensures ok { OnOk result (self.new ≡ self.old ++ map (placed_of file) spots.now) }
        ensures err { OnErr result (self.new ≡ self.old) }
    {
        let before = self.list.len();
        match copy_spots(self.alloc, &mut self.list, file, spots) {
            Ok(()) => Ok(()),
            Err(NoMemory) => {
                self.list.truncate(before);
                Err(NoMemory)
            }
        }
    }

    /// What the records mean, in memory of its own: one pass over them fills the tables that all of it is
    /// taken from.
    pub fn summary(&self) -> Result<Summary, NoMemory>
        ensures state { IfOk result (λ s. s.state ≡ result_of self.now) }
        ensures live { IfOk result (λ s. s.live ≡ live_numbers self.now) }
        ensures open_txs { IfOk result (λ s. s.open_txs ≡ open_txs self.now) }
        ensures highest_tx { IfOk result (λ s. s.highest_tx ≡ highest_of self.now) }
    {
        let alloc = self.alloc;
        let tables = tables_of(alloc, &self.list)?;
        let highest_tx = tables.highest_tx;
        let open_txs = open_from(alloc, &tables.turns)?;
        let state = tables.into_state(alloc)?;
        let live = each_once(alloc, &ids_of(alloc, state.live.as_slice())?)?;
        Ok(Summary {
            state,
            live: Items::of(live),
            open_txs: Items::of(open_txs),
            highest_tx,
        })
    }

    /// The records that were fed, handed back.
    pub fn into_records(self) -> Vec<Placed>
        ensures { result.items ≡ self }
    {
        let Loading { list, .. } = self;
        list
    }

    /// The live records and the transactions in doubt of all that was fed, whose records are moved there.
    pub fn finish(self) -> Result<LoadState, NoMemory>
        ensures { IfOk result (λ s. s ≡ result_of self) }
    {
        let Loading { alloc, list } = self;
        tables_from(alloc, list)?.into_state(alloc)
    }
}

/// Adds the records of a file in memory of their own, all of them or some at the front.
pub fn copy_spots(
    alloc: Global,
    list: &mut Vec<Placed>,
    file: u64,
    spots: &[Spot<'_>],
) -> Result<(), NoMemory>
    ensures ok { OnOk result (list.new.items ≡ list.old.items ++ map (placed_of file) spots.now) }
    ensures err { OnErr result (take (vec_len list.old) list.new.items ≡ list.old.items) }
{
    for spot in spots {
        let placed = Placed {
            file,
            place: spot.place,
            compact: spot.compact,
            rec: spot.rec.to_record(alloc)?,
        };
        match list.push(placed) {
            Ok(()) => {}
            Err(_) => return Err(NoMemory),
        }
    }
    Ok(())
}
