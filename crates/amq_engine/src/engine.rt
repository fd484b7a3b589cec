//! The journal over one disk.
ghost use Rattle.std.specs.Prelude.{◌≡◌, ◌⊎◌, ◌↔◌, ◌+◌, ◌<◌, ◌≤◌, ◌&&◌, ◌-◌, ◌^◌, ℕ, Bool, Option, max, nat_lt, false, true, if◌then◌else◌, [], length, None, Some, is_ok, is_some, Ok, Err, IsTrue, IfSome, IsSome, IfOk, IfErr, OnOk, OnErr};
ghost use Rattle.amq_model.specs.Configs.{IsConfig};
ghost use Rattle.amq_model.specs.Calls.{Past, counted};
ghost use Rattle.amq_model.specs.Leaves.{Told};
ghost use Rattle.amq_model.specs.Effect.{result_of};
ghost use Rattle.amq_model.specs.Legal.{AreLegalOfRefused, rolled_back, end_of};
ghost use Rattle.amq_model.specs.declared.refusal.DiskCall.{DiskCall};
ghost use Rattle.amq_model.specs.Answers.{history_of, refusal};
ghost use Rattle.amq_io.specs.Cause.{NoneFailed};
ghost use Rattle.amq_buffer.specs.Buffered.{is_due};
ghost use Rattle.amq_loader.specs.Loads.{IsStateOf, IsTidy};
ghost use Rattle.amq_engine.specs.Directory.{IsJournal};
ghost use Rattle.amq_engine.specs.Opening.{HasBase, AreRolledBack, AreFirstRollbacks, IsFilled, StandsFrom, HasOpenCause};
ghost use Rattle.amq_engine.specs.DataFiles.{HasFilesMade, HasSameFiles, HasId, LeavesAllBut, IsCommandFile, HasOpenedFiles, HasFailedFiles, HasFilesOf, HasFilesSoFar};
ghost use Rattle.amq_engine.specs.Receipts.{IsCrashSafe, GoesOn, BeginsBySyncs};
ghost use Rattle.amq_engine.specs.Engine.{Notes, IsCommandAnswer, IsCommandRefusal, IsChronicle, IsBlank, AreSpentAtLast, HasCause, IsFlushRefusal, closed_after, durable_after, fault_refusal, closed_by, receipted, IsReply, prepares, asks_disk, flushed, behind_command, BehindRefused, behind_tick, must_flush, at_clock, is_noted, writes_first};
ghost use Rattle.amq_engine.specs.Owed.{AreOwedAtOpening};

use crate::chronicle::Chronicle;
use crate::commands::{numbered, refusal_of, room_for};
use crate::moving::{passes, ready};
use crate::starting::{Started, start};
use crate::tail::{Tail, put_record, write_out};
use amq_io::{Disk, DiskFault};
use amq_model::{Answer, Command, Config, DiskCall, LoadState, OpenFault, Refusal, Reply, Step};
use amq_pool::Pool;
use amq_tx::TxTable;
use std::alloc::Global;
use std::marker::Model;

/// The journal over one disk, owned by one thread.
///
/// Appends wait in a buffer until they are flushed: when that is asked for, when the buffer has no room
/// for the next one, when the first of them is as old as the buffer's timeout, or when the journal goes
/// on to a further file, since the next record doesn't fit the rest of the one in use.
pub struct Engine<D: Disk, C: Chronicle> {
    alloc: Global,
    disk: D,
    chronicle: C,
    config: Config,
    table: TxTable,
    pool: Pool,
    tail: Tail,
    clock: u64,
    closed: Option<DiskCall>,
}

impl<D: Disk, C: Chronicle> Model for Engine<D, C> {
    ghost use Rattle.std.specs.Prelude.{length};
    ghost use Rattle.amq_tx.specs.Tables.{state_of};
    ghost use Rattle.amq_pool.specs.Pools.{ids_of};
    ghost use Rattle.amq_engine.specs.Engine.{EngineOf, engine_code, end_of_tail, opened, IsValid};

    ghost Value = { EngineOf D C };

    ghost coded = { engine_code D.code C.code };

    ghost view = { λ e. record {
      disk = e.disk;
      chronicle = e.chronicle;
      config = e.config;
      appended = e.tail.appended;
      durable = e.tail.durable;
      waiting = length e.tail.buffer.bytes;
      since = e.tail.buffer.since;
      file = e.tail.file.id;
      end = end_of_tail e.tail;
      highest = e.pool.highest;
      free = ids_of e.pool.prepared;
      clock = e.clock;
      closed = e.closed;
    } };

    ghost invariant = { λ e. IsValid opened (D.past e.disk) (D.moment e.disk)
        (C.lists e.chronicle) (C.receipt_room e.chronicle) e.config (state_of e.table)
        e.pool e.tail };
}

/// Why a journal wasn't opened, with its disk and its chronicle.
pub struct OpenFailed<D, C> {
    pub disk: D,
    pub chronicle: C,
    pub fault: OpenFault,
}

impl<D: Disk, C: Chronicle> Engine<D, C> {
    /// How many appends there were since the opening.
    pub fn appended(&self) -> u64
        ensures { result ≡ self.now.appended }
    {
        self.tail.appended
    }

    /// How many of the appends are durable.
    pub fn durable(&self) -> u64
        ensures { result ≡ self.now.durable }
    {
        self.tail.durable
    }

    /// The id of the file in use.
    pub fn file(&self) -> u64
        ensures id { result ≡ self.now.file }
        ensures number { result < 2 ^ 31 }
    {
        self.tail.file.id
    }

    /// Opens a journal in a directory.
    ///
    /// It loads, and makes every data file durable; from then on the receipt of nothing stands. It removes
    /// what earlier openings left unfinished, begins a new file, and appends, as seat 0, a ROLLBACK for
    /// each transaction that has a record, no end and no sound PREPARE, ascending by number. Then it
    /// flushes, and prepares files until there are `min_files` with the file in use and the closed ones.
    /// Transactions in doubt stay open and prepared. What it loaded is handed back with the engine.
    ///
    /// # Errors
    ///
    /// `Directory` and `NotBuilt`, where the directory is unchanged, `FileIdsSpent`, `Disk` and
    /// `NoMemory`. The directory can be opened again with an empty chronicle.
    pub fn open_on(
        alloc: Global,
        mut disk: D,
        mut chronicle: C,
        config: Config,
    ) -> Result<(Engine<D, C>, LoadState), OpenFailed<D, C>>
        requires config { IsConfig config }
        requires blank { IfSome (C.lists chronicle) IsBlank }
        ensures opened { IfOk result (λ e.
            (e.0.config ≡ config)
            × (e.0.durable ≡ e.0.appended)
            × (e.0.waiting ≡ 0)
            × (e.0.since ≡ None)
            × (e.0.clock ≡ 0)
            × (e.0.closed ≡ None)) }
        ensures base { IfOk result (λ e.
            IfSome (C.lists e.0.chronicle)
            (λ l. Told (D.past disk) (HasBase config.user_version l.base))) }
        ensures state { IfOk result
            (λ e. IfSome (C.lists e.0.chronicle) (λ l. e.1 ≡ result_of l.base)) }
        ensures tidy { IfOk result (λ e. Told (D.past e.0.disk) IsTidy) }
        ensures loaded { IfOk result (λ e. Told (D.past disk) (IsStateOf config.user_version e.1)) }
        ensures rolled { IfOk result
            (λ e. IfSome (C.lists e.0.chronicle) (λ l. AreRolledBack l.base l.steps)) }
        ensures files { IfOk result (λ e.
            IfSome (C.lists e.0.chronicle) (λ l.
            Told (D.past disk) (IsFilled config (rolled_back l.base) (history_of l.steps)
            e.0.file e.0.end e.0.highest e.0.free))) }
        ensures content { IfOk result (λ e.
            IfSome (C.lists e.0.chronicle) (λ l.
            Told (D.past e.0.disk)
            (IsJournal config.user_version l.base (history_of l.steps)))) }
        ensures faults { IfOk result (λ e. NoneFailed (D.faults disk) (D.faults e.0.disk)) }
        ensures opened_files { IfOk result
            (λ e. HasOpenedFiles config e.0.highest (D.past disk) (D.past e.0.disk)) }
        ensures journal_files { IfOk result (λ e. IfSome (C.lists e.0.chronicle)
            (λ l. HasFilesSoFar true config e.0.file e.0.end e.0.highest l
            (D.past disk) (D.past e.0.disk))) }
        ensures later { IfOk result (λ e. (D.faults disk).0 ≤ (D.faults e.0.disk).0) }
        ensures failed { IfOk result (λ e. (D.faults e.0.disk).1 ≡ (D.faults disk).1) }
        ensures cause { IfErr result (λ e.
            HasOpenCause config e.fault (C.lists e.chronicle) (D.past disk) (D.past e.disk)
            (D.faults disk) (D.faults e.disk)) }
        ensures failed_later { IfErr result (λ e. (D.faults disk).0 ≤ (D.faults e.disk).0) }
        ensures failed_legal { IfErr result
            (λ e. IfSome (C.lists e.chronicle) (λ l. AreLegalOfRefused l.base l.steps config)) }
        ensures failed_appended { IfErr result (λ e.
            IfSome (C.lists e.chronicle) (λ l. length (history_of l.steps) ≡ length l.steps)) }

        // Each receipt is kept, also where the opening failed behind the first; before it, nothing new is left.
        ensures failed_safe { IfErr result (λ e.
            IfSome (C.lists e.chronicle)
            (IsCrashSafe (D.past e.disk) (D.moment e.disk) config.user_version)) }
        ensures failed_base { IfErr result (λ e.
            IfSome (C.lists e.chronicle)
            (λ l. IsBlank l ⊎ Told (D.past disk) (HasBase config.user_version l.base))) }
        ensures failed_rollbacks { IfErr result (λ e.
            IfSome (C.lists e.chronicle)
            (λ l. IsBlank l ⊎ Told (D.past disk) (AreFirstRollbacks config l))) }
        ensures failed_spent { IfErr result
            (λ e. IfSome (C.lists e.chronicle) (λ l. AreSpentAtLast [] l.steps)) }
        ensures failed_files { IfErr result (λ e. IfSome (C.lists e.chronicle)
            (λ l. HasFailedFiles config l (D.past disk) (D.past e.disk))) }
        ensures failed_unnoted { IfErr result
            (λ e. IfSome (C.lists e.chronicle) (λ l. l.receipts ≡ [] → IsBlank l)) }
        ensures begins { IfOk result (λ e.
            IfSome (C.lists e.0.chronicle)
            (λ l. BeginsBySyncs l.receipts (D.past disk) (D.past e.0.disk))) }
        ensures failed_begins { IfErr result (λ e.
            IfSome (C.lists e.chronicle)
            (λ l. BeginsBySyncs l.receipts (D.past disk) (D.past e.disk))) }
        ensures chronicle { IfOk result (λ e.
            IfSome (C.lists e.0.chronicle) (IsChronicle (D.past e.0.disk) (D.moment e.0.disk)
            config e.0.appended e.0.durable)) }
        ensures ends { IfOk result
            (λ e. IfSome (C.lists e.0.chronicle) (λ l. e.0.end ≡ end_of (history_of l.steps))) }

        // Nothing is made durable but for a rollback that doesn't fit, and behind the last one.
        ensures owed { IfOk result (λ e. IfSome (C.lists e.0.chronicle) (AreOwedAtOpening config)) }
        ensures failed_owed { IfErr result
            (λ e. IfSome (C.lists e.chronicle) (AreOwedAtOpening config)) }
    {
        match start(alloc, &mut disk, &mut chronicle, &config) {
            Ok(
                Started {
                    table,
                    pool,
                    tail,
                    state,
                },
            ) => {
                let engine = Engine {
                    alloc,
                    disk,
                    chronicle,
                    config,
                    table,
                    pool,
                    tail,
                    clock: 0,
                    closed: None,
                };
                Ok((engine, state))
            }
            Err(fault) => Err(OpenFailed {
                disk,
                chronicle,
                fault,
            }),
        }
    }

    /// Answers a command.
    ///
    /// Its record waits in the buffer until a flush. Where it doesn't fit there, what waits is flushed
    /// first; where it doesn't fit the rest of the file in use, that too, and the journal goes on to the
    /// prepared file with the least id, or to one prepared now. The first refusal of `Closed`,
    /// `TooLarge`, `NoTx`, `TxPrepared`, `Held`, `AlreadyLive`, `NoRecord`, `TxNumbersSpent` and
    /// `FileIdsSpent` that holds is the answer, before any disk call. After `NoMemory` the history, the
    /// transactions and the live ids are as they were, and the command can be given again.
    pub fn command(&mut self, seat: u32, number: u64, command: Command) -> Result<Reply, Refusal>
        requires producer { 0 < seat }
        ensures noted { Notes seat number command result self.new.file self.new.end
            (receipted (nat_lt self.old.durable self.new.durable) self.old.appended
            (counted (counted (D.moment self.old.disk))) (C.lists self.old.chronicle))
            (C.lists self.new.chronicle) }
        ensures reply { IfOk result (IsReply self.old.appended command) }
        ensures ok { OnOk result (self.new
            ≡ record (behind_command command self.old)
            { disk = self.new.disk; chronicle = self.new.chronicle }) }
        ensures err { OnErr result (BehindRefused command self.old self.new) }
        ensures closes { self.new.closed ≡ closed_after result self.old.closed }
        ensures shut { IsSome self.old.closed → self.new ≡ self.old }
        ensures answers { IfErr result IsCommandAnswer }
        ensures refused { IfErr result (λ refusal.
            IsCommandRefusal refusal
            → (self.new ≡ record self.old { chronicle = self.new.chronicle })) }
        ensures spent { (highest : ℕ)
            → result ≡ Err (Refusal.FileIdsSpent highest)
            → (highest ≡ self.old.highest)
            × (highest ≡ 2 ^ 31 - 1)
            × (prepares self.old command ≡ true) }
        ensures numbers { OnOk result
            (prepares self.old command ≡ true → self.old.highest < 2 ^ 31 - 1) }
        ensures idle { (asks_disk self.old command ≡ false) ⊎ IsSome self.old.closed
            → self.new.disk ≡ self.old.disk }
        ensures unasked { IfSome (C.lists self.old.chronicle) (λ l.
            IsSome (refusal l.base l.steps self.old.config command)
            → self.new.disk ≡ self.old.disk) }
        ensures spared { prepares self.old command ≡ true
            → 2 ^ 31 - 1 ≤ self.old.highest
            → self.new.disk ≡ self.old.disk }
        ensures calls { D.moment self.new.disk
            ≤ D.moment self.old.disk
            + (if writes_first self.old command then 2 else 0)
            + (if prepares self.old command then 4 else 0) }
        ensures closed { (call : DiskCall)
            → (result ≡ Err (Refusal.Closed call)) ↔ (self.old.closed ≡ Some call) }
        ensures cause { HasCause result (D.faults self.old.disk) (D.faults self.new.disk) }
        ensures failed { closed_after result None ≡ None
            → (D.faults self.new.disk).1 ≡ (D.faults self.old.disk).1 }
        ensures later { (D.faults self.old.disk).0 ≤ (D.faults self.new.disk).0 }
        ensures stands { (first : ℕ)
            → IfSome (C.lists self.old.chronicle)
            (StandsFrom self.old.config first self.old.file self.old.end)
            → IfSome (C.lists self.new.chronicle)
            (StandsFrom self.new.config first self.new.file self.new.end) }
        ensures spares { LeavesAllBut (IsCommandFile self.old command) (D.past self.old.disk)
            (D.past self.new.disk) }
        ensures files { OnOk result (Told (D.past self.old.disk) (λ o.
            Told (D.past self.new.disk)
            (HasFilesMade self.old.config.file_size self.old.highest self.new.highest o))) }
        ensures failed_files { OnErr result (Told (D.past self.old.disk) (λ o.
            Told (D.past self.new.disk) (λ s.
            HasSameFiles o s
            ⊎ (IsTrue (prepares self.old command)
            × HasFilesMade self.old.config.file_size self.old.highest
            (self.old.highest + 1) o s)))) }
        ensures journal_files { (done : Bool) (first : Option Past)
            → IfSome (C.lists self.old.chronicle) (λ l. HasFilesSoFar done self.old.config
            self.old.file self.old.end self.old.highest l first (D.past self.old.disk))
            → IfSome (C.lists self.new.chronicle) (λ l. HasFilesSoFar (done && is_noted result)
            self.new.config self.new.file self.new.end self.new.highest l first
            (D.past self.new.disk)) }
        ensures goes_on { GoesOn (D.past self.old.disk) (D.past self.new.disk) }
        ensures tidy { is_noted result ≡ true
            → Told (D.past self.old.disk) IsTidy
            → Told (D.past self.new.disk) IsTidy }
        ensures chronicle { IfSome (C.lists self.new.chronicle) (IsChronicle
            (D.past self.new.disk) (D.moment self.new.disk) self.new.config self.new.appended
            self.new.durable) }
    {
        if let Some(fault) = self.closed {
            return Err(Refusal::Closed { fault });
        }
        let rec = match room_for(self.alloc, &mut self.chronicle, &mut self.table, &command) {
            Ok(rec) => rec,
            Err(_) => return Err(Refusal::NoMemory),
        };
        let end = self.tail.end + self.tail.buffer.bytes().len() as u64;
        let moves = passes(self.config.file_size, end, &rec);
        if let Some(refusal) = refusal_of(
            &self.config,
            &self.table,
            &self.pool,
            moves,
            &command,
            &rec,
        ) {
            self.chronicle.step(Step {
                seat,
                number,
                command,
                answer: Answer::Refused(refusal),
                placed: None,
            });
            return Err(refusal);
        }
        if let Err(fault) = ready(
            &mut self.disk,
            &mut self.chronicle,
            &mut self.pool,
            &mut self.tail,
            moves,
            &command,
            &rec,
        ) {
            return Err(close_after(&mut self.closed, fault));
        }
        let file = self.tail.file.id;
        let rec = numbered(&self.table, &command, file, rec);
        let given = self.table.apply(&command, file);
        let (reply, placed) = put_record(&mut self.tail, self.clock, given, rec);
        self.chronicle.step(Step {
            seat,
            number,
            command,
            answer: Answer::Done(reply),
            placed,
        });
        Ok(reply)
    }

    /// Makes all appends durable, with one write and one sync, and answers how many there are. Where
    /// all are, it makes no disk call and notes no receipt.
    pub fn flush(&mut self) -> Result<u64, Refusal>
        ensures count { IfOk result (λ count. count ≡ self.old.appended) }
        ensures ok { OnOk result (self.new
            ≡ record (flushed self.old) { disk = self.new.disk; chronicle = self.new.chronicle }) }
        ensures err { OnErr result (self.new
            ≡ record self.old {
              disk = self.new.disk;
              chronicle = self.new.chronicle;
              closed = closed_after result self.old.closed;
            }) }
        ensures refusals { IfErr result IsFlushRefusal }
        ensures receipt { C.lists self.new.chronicle
            ≡ receipted (is_ok result && is_some self.old.since) self.old.appended
            (D.moment self.new.disk) (C.lists self.old.chronicle) }
        ensures idle { (self.old.since ≡ None) ⊎ IsSome self.old.closed
            → self.new.disk ≡ self.old.disk }
        ensures quiet { self.old.closed ≡ None → self.old.since ≡ None → is_ok result ≡ true }
        ensures calls { D.moment self.new.disk
            ≤ D.moment self.old.disk + (if is_some self.old.since then 2 else 0) }
        ensures closed { (call : DiskCall)
            → (result ≡ Err (Refusal.Closed call)) ↔ (self.old.closed ≡ Some call) }
        ensures cause { HasCause result (D.faults self.old.disk) (D.faults self.new.disk) }
        ensures failed { closed_after result None ≡ None
            → (D.faults self.new.disk).1 ≡ (D.faults self.old.disk).1 }
        ensures later { (D.faults self.old.disk).0 ≤ (D.faults self.new.disk).0 }
        ensures stands { (first : ℕ)
            → IfSome (C.lists self.old.chronicle)
            (StandsFrom self.old.config first self.old.file self.old.end)
            → IfSome (C.lists self.new.chronicle)
            (StandsFrom self.new.config first self.new.file self.new.end) }
        ensures spares { LeavesAllBut (HasId self.old.file) (D.past self.old.disk)
            (D.past self.new.disk) }
        ensures files { Told (D.past self.old.disk)
            (λ o. Told (D.past self.new.disk) (HasSameFiles o)) }
        ensures journal_files { (done : Bool) (first : Option Past)
            → IfSome (C.lists self.old.chronicle) (λ l. HasFilesSoFar done self.old.config
            self.old.file self.old.end self.old.highest l first (D.past self.old.disk))
            → IfSome (C.lists self.new.chronicle) (λ l. HasFilesSoFar done self.new.config
            self.new.file self.new.end self.new.highest l first (D.past self.new.disk)) }
        ensures goes_on { GoesOn (D.past self.old.disk) (D.past self.new.disk) }
        ensures tidy { OnOk result
            (Told (D.past self.old.disk) IsTidy → Told (D.past self.new.disk) IsTidy) }
        ensures chronicle { IfSome (C.lists self.new.chronicle) (IsChronicle
            (D.past self.new.disk) (D.moment self.new.disk) self.new.config self.new.appended
            self.new.durable) }
        ensures waits { IsSome self.old.since → self.old.durable < self.old.appended }
        ensures told { IfSome (C.lists self.old.chronicle) (IsChronicle (D.past self.old.disk)
            (D.moment self.old.disk) self.old.config self.old.appended self.old.durable) }
    {
        if let Some(fault) = self.closed {
            return Err(Refusal::Closed { fault });
        }
        match write_out(&mut self.disk, &mut self.chronicle, &mut self.tail) {
            Ok(()) => Ok(self.tail.durable),
            Err(fault) => Err(close_after(&mut self.closed, fault)),
        }
    }

    /// Sets the clock to `now`, unless it is later, and flushes where the first append in the buffer is
    /// then at least the buffer's timeout old. Answers how many appends are durable.
    pub fn tick(&mut self, now: u64) -> Result<u64, Refusal>
        ensures count { IfOk result (λ count. count ≡ self.new.durable) }
        ensures ok { OnOk result (self.new
            ≡ record (behind_tick now self.old)
            { disk = self.new.disk; chronicle = self.new.chronicle }) }
        ensures err { OnErr result (self.new
            ≡ record self.old {
              disk = self.new.disk;
              chronicle = self.new.chronicle;
              clock = self.new.clock;
              closed = closed_after result self.old.closed;
            }) }
        ensures clock { self.new.clock
            ≡ (if is_some self.old.closed then self.old.clock else max self.old.clock now) }
        ensures refusals { IfErr result IsFlushRefusal }
        ensures receipt { C.lists self.new.chronicle
            ≡ receipted (is_ok result && must_flush (at_clock now self.old)) self.old.appended
            (D.moment self.new.disk) (C.lists self.old.chronicle) }
        ensures idle { (must_flush (at_clock now self.old) ≡ false) ⊎ IsSome self.old.closed
            → self.new.disk ≡ self.old.disk }
        ensures quiet { self.old.closed ≡ None
            → must_flush (at_clock now self.old) ≡ false
            → is_ok result ≡ true }
        ensures calls { D.moment self.new.disk
            ≤ D.moment self.old.disk + (if is_some self.old.since then 2 else 0) }
        ensures closed { (call : DiskCall)
            → (result ≡ Err (Refusal.Closed call)) ↔ (self.old.closed ≡ Some call) }
        ensures cause { HasCause result (D.faults self.old.disk) (D.faults self.new.disk) }
        ensures failed { closed_after result None ≡ None
            → (D.faults self.new.disk).1 ≡ (D.faults self.old.disk).1 }
        ensures later { (D.faults self.old.disk).0 ≤ (D.faults self.new.disk).0 }
        ensures stands { (first : ℕ)
            → IfSome (C.lists self.old.chronicle)
            (StandsFrom self.old.config first self.old.file self.old.end)
            → IfSome (C.lists self.new.chronicle)
            (StandsFrom self.new.config first self.new.file self.new.end) }
        ensures spares { LeavesAllBut (HasId self.old.file) (D.past self.old.disk)
            (D.past self.new.disk) }
        ensures files { Told (D.past self.old.disk)
            (λ o. Told (D.past self.new.disk) (HasSameFiles o)) }
        ensures journal_files { (done : Bool) (first : Option Past)
            → IfSome (C.lists self.old.chronicle) (λ l. HasFilesSoFar done self.old.config
            self.old.file self.old.end self.old.highest l first (D.past self.old.disk))
            → IfSome (C.lists self.new.chronicle) (λ l. HasFilesSoFar done self.new.config
            self.new.file self.new.end self.new.highest l first (D.past self.new.disk)) }
        ensures goes_on { GoesOn (D.past self.old.disk) (D.past self.new.disk) }
        ensures tidy { OnOk result
            (Told (D.past self.old.disk) IsTidy → Told (D.past self.new.disk) IsTidy) }
        ensures chronicle { IfSome (C.lists self.new.chronicle) (IsChronicle
            (D.past self.new.disk) (D.moment self.new.disk) self.new.config self.new.appended
            self.new.durable) }
    {
        if let Some(fault) = self.closed {
            return Err(Refusal::Closed { fault });
        }
        self.clock = self.clock.max(now);
        if self.tail.buffer.due(self.clock) {
            return self.flush();
        }
        Ok(self.tail.durable)
    }

    /// Flushes, and hands back the disk and the chronicle.
    pub fn close(mut self) -> (D, C, Result<u64, Refusal>)
        ensures count { IfOk result.2 (λ count. count ≡ self.appended) }
        ensures refusals { IfErr result.2 IsFlushRefusal }
        ensures receipt { C.lists result.1
            ≡ receipted (is_ok result.2 && is_some self.since) self.appended (D.moment result.0)
            (C.lists self.chronicle) }
        ensures idle { (self.since ≡ None) ⊎ IsSome self.closed → result.0 ≡ self.disk }
        ensures quiet { self.closed ≡ None → self.since ≡ None → is_ok result.2 ≡ true }
        ensures calls { D.moment result.0
            ≤ D.moment self.disk + (if is_some self.since then 2 else 0) }
        ensures closed { (call : DiskCall)
            → (result.2 ≡ Err (Refusal.Closed call)) ↔ (self.closed ≡ Some call) }
        ensures cause { HasCause result.2 (D.faults self.disk) (D.faults result.0) }
        ensures failed { closed_after result.2 None ≡ None
            → (D.faults result.0).1 ≡ (D.faults self.disk).1 }
        ensures later { (D.faults self.disk).0 ≤ (D.faults result.0).0 }
        ensures spares { LeavesAllBut (HasId self.file) (D.past self.disk) (D.past result.0) }
        ensures files { Told (D.past self.disk) (λ o. Told (D.past result.0) (HasSameFiles o)) }
        ensures journal_files { (done : Bool) (first : Option Past)
            → IfSome (C.lists self.chronicle) (λ l. HasFilesSoFar done self.config
            self.file self.end self.highest l first (D.past self.disk))
            → IfSome (C.lists result.1) (λ l. HasFilesOf done self.config (history_of l.steps) first
            (D.past result.0)) }
        ensures goes_on { GoesOn (D.past self.disk) (D.past result.0) }
        ensures tidy { OnOk result.2
            (Told (D.past self.disk) IsTidy → Told (D.past result.0) IsTidy) }
        ensures content { OnOk result.2 (IfSome (C.lists result.1) (λ l.
            Told (D.past result.0)
            (IsJournal self.config.user_version l.base (history_of l.steps)))) }
        ensures chronicle { IfSome (C.lists result.1) (IsChronicle (D.past result.0)
            (D.moment result.0) self.config self.appended (durable_after result.2 self.durable)) }
        ensures waits { IsSome self.since → self.durable < self.appended }
        ensures told { IfSome (C.lists self.chronicle) (IsChronicle (D.past self.disk)
            (D.moment self.disk) self.config self.appended self.durable) }
    {
        let outcome = self.flush();
        let Engine {
            alloc: _,
            disk,
            chronicle,
            config: _,
            table: _,
            pool: _,
            tail: _,
            clock: _,
            closed: _,
        } = self;
        (disk, chronicle, outcome)
    }
}

/// The refusal for a fault of the disk. A disk call that failed closes the engine.
fn close_after(closed: &mut Option<DiskCall>, fault: DiskFault) -> Refusal
    ensures refusal { result ≡ fault_refusal fault }
    ensures closed { closed.new ≡ closed_by fault closed.old }
{
    match fault {
        DiskFault::Disk(call) => {
            *closed = Some(call);
            Refusal::Disk { call }
        }
        DiskFault::NoMemory => Refusal::NoMemory,
    }
}
