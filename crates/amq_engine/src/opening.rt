//! Loading the directory of a journal, and beginning a new file in it.
ghost use Rattle.std.specs.Prelude.{◌≡◌, ◌⊎◌, ◌+◌, ◌-◌, ◌^◌, ◌<◌, ◌≤◌, ℕ, false, List, Option, [], length, None, map, filter, not, option_map, IfSome, IfOk, IfErr, OnOk, OnErr};
ghost use Rattle.amq_model.specs.declared.record.Placed.{Placed};
ghost use Rattle.amq_model.specs.Configs.{IsConfig};
ghost use Rattle.amq_model.specs.Effect.{result_of};
ghost use Rattle.amq_model.specs.Legal.{rolled_back};
ghost use Rattle.amq_model.specs.Leaves.{Leaves, Syncs, AllReads, Told, HoldsSince, SparesAllBut};
ghost use Rattle.amq_model.specs.LoadCalls.{Makes};
ghost use Rattle.amq_io.specs.Cause.{NoneFailed};
ghost use Rattle.amq_io.specs.Faults.{HasFault};
ghost use Rattle.amq_buffer.specs.Buffered.{Buffered};
ghost use Rattle.amq_tx.specs.Follows.{Follows};
ghost use Rattle.amq_tx.specs.Tables.{state_of};
ghost use Rattle.amq_pool.specs.Pools.{IsPool, numbered_file, Making, Made};
ghost use Rattle.amq_loader.specs.Loads.{IsLoad, IsLoadOf, IsStateOf, IsTidy};
ghost use Rattle.amq_loader.specs.Bases.{IsBase};
ghost use Rattle.amq_engine.specs.Directory.{Stands};
ghost use Rattle.amq_engine.specs.DataFiles.{Works, Worked, IsRenewed, SyncsAllBut, HasFailedFiles};
ghost use Rattle.amq_engine.specs.Lists.{Lists, with_base, with_receipt};
ghost use Rattle.amq_engine.specs.Receipts.{IsCrashSafe, GoesOn, AreOpeningCalls, AreFirstOpeningCalls, BeginsBySyncs};
ghost use Rattle.amq_engine.specs.Engine.{rolling, IsValid, IsBlank, Holds, open_fault};
ghost use Rattle.amq_engine.specs.Opening.{HasBase, HasNumbers, AreFirstRollbacks, HasOpenCause, load_fault, AreLeft};
ghost use Rattle.amq_engine.specs.Owed.{AreOwedToSteps};

use crate::chronicle::Chronicle;
use crate::moving::MOST_NUMBER;
use amq_io::{Disk, DiskFault};
use amq_loader::{LoadFault, Loaded, load, settle_directory, sync_files};
use amq_model::{Config, Items, LoadState, NoMemory, OpenFault, OpenTx, Placed};
use amq_pool::{Pool, PoolFault, PoolFile};
use amq_tx::TxTable;
use std::alloc::Global;
use std::mem;

/// What an opening has once its new file is there.
#[derive(Drop)]
pub struct Begun {
    /// The ids and open transactions of what was loaded.
    pub table: TxTable,
    /// The pool, which has no file yet.
    pub pool: Pool,
    /// The file in use.
    pub file: PoolFile,
    /// The live records and the transactions in doubt.
    pub state: LoadState,
    /// The transactions that are to be rolled back, ascending.
    pub rollbacks: Vec<u64>,
    /// How many data files there were.
    pub files: u64,
}

/// A fault of the disk, as the opening's.
pub fn fault_of(fault: DiskFault) -> OpenFault
    ensures { result ≡ open_fault fault }
{
    match fault {
        DiskFault::Disk(call) => OpenFault::Disk { call },
        DiskFault::NoMemory => OpenFault::NoMemory,
    }
}

/// A fault of the load, as the opening's.
fn load_fault_of(fault: LoadFault) -> OpenFault
    ensures { result ≡ load_fault fault }
{
    match fault {
        LoadFault::Directory(found) => OpenFault::Directory(found),
        LoadFault::Disk { call } => OpenFault::Disk { call },
        LoadFault::NoMemory => OpenFault::NoMemory,
        LoadFault::NotBuilt => OpenFault::NotBuilt,
    }
}

/// Loads the directory, and makes its data files durable. It asks for lists, reads and syncs alone.
fn load_durably<D: Disk>(alloc: Global, disk: &mut D, config: &Config) -> Result<Loaded, OpenFault>
    ensures every { IfOk result (IsLoad config.now.user_version) }
    ensures told { IfOk result (λ l. Told (D.past disk.old) (IsLoadOf config.now.user_version l)) }
    ensures base { IfOk result
        (λ l. IsBase (D.past disk.new) config.now.user_version l.highest_file l.base) }
    ensures unspent { IfOk result (λ l. l.highest_file < 2 ^ 31 - 1) }
    ensures left { IfOk result (λ l. Told (D.past disk.new) (AreLeft l.leftovers)) }
    ensures calls { OnOk result (Makes AreOpeningCalls (D.past disk.old) (D.past disk.new)) }
    ensures first_calls { Makes AreFirstOpeningCalls (D.past disk.old) (D.past disk.new) }
    ensures crash { Leaves Syncs Syncs (D.past disk.old) (D.past disk.new) }
    ensures cause { IfErr result (λ fault.
        (lists : Option Lists)
        → IfSome lists IsBlank
        → HasOpenCause config.now fault lists (D.past disk.old) (D.past disk.new)
        (D.faults disk.old) (D.faults disk.new)) }
    ensures faults { OnOk result (NoneFailed (D.faults disk.old) (D.faults disk.new)) }
    ensures later { (D.faults disk.old).0 ≤ (D.faults disk.new).0 }
{
    let loaded = match load(alloc, disk, config.user_version) {
        Ok(loaded) => loaded,
        Err(fault) => return Err(load_fault_of(fault)),
    };
    if loaded.highest_file >= MOST_NUMBER {
        return Err(OpenFault::FileIdsSpent {
            highest: loaded.highest_file,
        });
    }
    match sync_files(disk, &loaded) {
        Ok(()) => Ok(loaded),
        Err(fault) => Err(fault_of(fault)),
    }
}

/// The transactions that are open and not prepared, by number.
fn unprepared(alloc: Global, open_txs: &[OpenTx]) -> Result<Vec<u64>, NoMemory>
    ensures { IfOk result
        (λ txs. txs.items ≡ map (λ o. o.tx) (filter (λ o. not o.prepared) open_txs.now)) }
{
    let mut txs = Vec::new(alloc);
    for open in open_txs {
        if !open.prepared && txs.push(open.tx).is_err() {
            return Err(NoMemory);
        }
    }
    Ok(txs)
}

/// The table of what was loaded, which takes the live ids and the open transactions from it.
fn table_of(alloc: Global, loaded: &mut Loaded) -> Result<TxTable, NoMemory>
    requires { (wanted : ℕ) × IsLoad wanted loaded.old }
    ensures follows { IfOk result (λ t. Follows (state_of t) loaded.old.base []) }
    ensures rest { loaded.new
        ≡ record loaded.old { live = loaded.new.live; open_txs = loaded.new.open_txs } }
{
    let live = mem::replace(&mut loaded.live, Items::of(Vec::new(alloc)));
    let open_txs = mem::replace(&mut loaded.open_txs, Items::of(Vec::new(alloc)));
    TxTable::new(
        alloc,
        live.into_vec(),
        open_txs.into_vec(),
        loaded.highest_tx,
    )
}

/// Notes the base, and the receipt of nothing at this moment.
fn note<C: Chronicle>(chronicle: &mut C, base: Items<Placed>, moment: u64) -> Result<(), NoMemory>
    ensures ok { OnOk result (C.lists chronicle.new
        ≡ option_map (with_receipt 0 moment)
        (option_map (with_base base) (C.lists chronicle.old))) }
    ensures err { OnErr result (C.lists chronicle.new ≡ C.lists chronicle.old) }
{
    chronicle.room()?;
    chronicle.base(base)?;
    chronicle.receipt(0, moment);
    Ok(())
}

/// Prepares the next file, and takes it.
fn begin_file<D: Disk>(disk: &mut D, pool: &mut Pool) -> Result<PoolFile, DiskFault>
    requires number { pool.old.highest < 2 ^ 31 - 1 }
    requires none { pool.old.prepared ≡ [] }
    ensures file { IfOk result (λ file. file ≡ numbered_file (pool.old.highest + 1)) }
    ensures pool { OnOk result (pool.new
        ≡ record { config = pool.old.config; highest = pool.old.highest + 1; prepared = [] }) }
    ensures crash { Leaves (Making pool.old.config (pool.old.highest + 1))
        (Making pool.old.config (pool.old.highest + 1)) (D.past disk.old) (D.past disk.new) }
    ensures ok { OnOk result (Leaves (Making pool.old.config (pool.old.highest + 1))
        (Made pool.old.config (pool.old.highest + 1)) (D.past disk.old) (D.past disk.new)) }
    ensures cause { HasFault result (D.faults disk.old) (D.faults disk.new) }
    ensures later { D.moment disk.old ≤ D.moment disk.new }
{
    match pool.prepare_step(disk) {
        Ok(()) => {}
        Err(PoolFault::Disk { call }) => return Err(DiskFault::Disk(call)),
        Err(PoolFault::NoMemory) => return Err(DiskFault::NoMemory),
        Err(PoolFault::FileIdsSpent { .. }) => unreachable!(),
    }
    match pool.take() {
        Some(file) => Ok(file),
        None => unreachable!(),
    }
}

/// Removes what earlier openings left unfinished, and begins a new file.
///
/// The answer is the pool, which has no file yet, and the file in use.
fn renew<D: Disk>(
    alloc: Global,
    disk: &mut D,
    config: &Config,
    loaded: &Loaded,
) -> Result<(Pool, PoolFile), DiskFault>
    requires config { IsConfig config.now }
    requires number { loaded.now.highest_file < 2 ^ 31 - 1 }
    requires left { Told (D.past disk.old) (AreLeft loaded.now.leftovers) }
    ensures pool { IfOk result (λ r.
        r.0
        ≡ record
        { config = config.now; highest = loaded.now.highest_file + 1; prepared = [] }) }
    ensures is { IfOk result (λ r. IsPool r.0) }
    ensures file { IfOk result (λ r. r.1 ≡ numbered_file (loaded.now.highest_file + 1)) }
    ensures kept { (base : List Placed) (moment : ℕ)
        → IsBase (D.past disk.old) config.now.user_version loaded.now.highest_file base
        → HoldsSince (D.past disk.old) moment (Holds config.now.user_version base 0 [])
        → HoldsSince (D.past disk.new) moment (Holds config.now.user_version base 0 []) }
    ensures stands { OnOk result ((base : List Placed)
        (b : IsBase (D.past disk.old) config.now.user_version loaded.now.highest_file base)
        → AllReads (D.past disk.new)
        (Stands config.now b.files (numbered_file (loaded.now.highest_file + 1)) 0 [] [])) }
    ensures works { OnOk result (Works
        (SparesAllBut
        (IsRenewed (D.past disk.old) loaded.now.highest_file (loaded.now.highest_file + 1)))
        config.now.file_size loaded.now.highest_file (loaded.now.highest_file + 1)
        (D.past disk.old) (D.past disk.new)) }
    ensures failed_works { OnErr result (Worked false
        (SparesAllBut (IsRenewed (D.past disk.old) loaded.now.highest_file
        (loaded.now.highest_file + 1))) config.now.file_size loaded.now.highest_file
        (loaded.now.highest_file + 1) (D.past disk.old) (D.past disk.new)) }
    ensures tidy { OnOk result (Told (D.past disk.new) IsTidy) }
    ensures cause { HasFault result (D.faults disk.old) (D.faults disk.new) }
    ensures later { D.moment disk.old ≤ D.moment disk.new }
    ensures goes_on { GoesOn (D.past disk.old) (D.past disk.new) }
{
    settle_directory(disk, loaded)?;
    let mut pool = Pool::new(alloc, loaded.highest_file, config);
    let file = begin_file(disk, &mut pool)?;
    Ok((pool, file))
}

/// What an opening has found: what was loaded, but the list of the live ids and that of the open
/// transactions; the table of these; and the transactions that are to be rolled back.
struct Found {
    loaded: Loaded,
    table: TxTable,
    rollbacks: Vec<u64>,
}

/// Loads the directory, makes its data files durable, and makes the table.
fn find<D: Disk>(alloc: Global, disk: &mut D, config: &Config) -> Result<Found, OpenFault>
    ensures base { IfOk result (λ f.
        IsBase (D.past disk.new) config.now.user_version f.loaded.highest_file f.loaded.base) }
    ensures has_base { IfOk result
        (λ f. Told (D.past disk.old) (HasBase config.now.user_version f.loaded.base)) }
    ensures numbers { IfOk result
        (λ f. Told (D.past disk.old) (HasNumbers (length f.loaded.files) f.loaded.highest_file)) }
    ensures count { IfOk result (λ f. length f.loaded.files ≤ f.loaded.highest_file + 1) }
    ensures unspent { IfOk result (λ f. f.loaded.highest_file < 2 ^ 31 - 1) }
    ensures left { IfOk result (λ f. Told (D.past disk.new) (AreLeft f.loaded.leftovers)) }
    ensures table { IfOk result (λ f. Follows (state_of f.table) f.loaded.base []) }
    ensures rollbacks { IfOk result (λ f. f.rollbacks.items ≡ rolled_back f.loaded.base) }
    ensures state { IfOk result (λ f. f.loaded.state ≡ result_of f.loaded.base) }
    ensures loaded { IfOk result
        (λ f. Told (D.past disk.old) (IsStateOf config.now.user_version f.loaded.state)) }
    ensures calls { OnOk result (Makes AreOpeningCalls (D.past disk.old) (D.past disk.new)) }
    ensures first_calls { Makes AreFirstOpeningCalls (D.past disk.old) (D.past disk.new) }
    ensures crash { Leaves Syncs Syncs (D.past disk.old) (D.past disk.new) }
    ensures cause { IfErr result (λ fault.
        (lists : Option Lists)
        → IfSome lists IsBlank
        → HasOpenCause config.now fault lists (D.past disk.old) (D.past disk.new)
        (D.faults disk.old) (D.faults disk.new)) }
    ensures faults { OnOk result (NoneFailed (D.faults disk.old) (D.faults disk.new)) }
    ensures later { (D.faults disk.old).0 ≤ (D.faults disk.new).0 }
{
    let mut loaded = load_durably(alloc, disk, config)?;
    let Ok(rollbacks) = unprepared(alloc, loaded.open_txs.as_slice()) else {
        return Err(OpenFault::NoMemory);
    };
    match table_of(alloc, &mut loaded) {
        Ok(table) => Ok(Found {
            loaded,
            table,
            rollbacks,
        }),
        Err(_) => Err(OpenFault::NoMemory),
    }
}

/// Loads the directory, makes its data files durable, notes the base and the receipt of nothing, removes
/// what earlier openings left unfinished, and begins a new file.
pub fn begin<D: Disk, C: Chronicle>(
    alloc: Global,
    disk: &mut D,
    chronicle: &mut C,
    config: &Config,
) -> Result<Begun, OpenFault>
    requires config { IsConfig config.now }
    requires blank { IfSome (C.lists chronicle.old) IsBlank }
    ensures valid { IfOk result (λ b.
        (buffer : Buffered)
        → buffer
        ≡ record {
          bytes = [];
          capacity = config.now.buffer_size;
          timeout = config.now.buffer_timeout;
          since = None;
        }
        → (base : List Placed)
        × IsValid (rolling base 0) (D.past disk.new) (D.moment disk.new)
        (C.lists chronicle.new) (C.receipt_room chronicle.new) config.now
        (state_of b.table) b.pool (record
        { file = b.file; buffer = buffer; end = 16; appended = 0; durable = 0 })
        × (b.rollbacks.items ≡ rolled_back base)
        × (b.state ≡ result_of base)) }
    ensures pool { IfOk result (λ b. (b.pool.prepared ≡ []) × (b.pool.highest ≡ b.file.id)) }
    ensures lists { OnOk result (IfSome (C.lists chronicle.new)
        (λ l. (l.steps ≡ []) × Told (D.past disk.old) (HasBase config.now.user_version l.base))) }
    ensures numbers { IfOk result (λ b.
        Told (D.past disk.old) (λ s.
        (before : ℕ)
        × HasNumbers b.files before s
        × (b.file.id ≡ before + 1)
        × (before < 2 ^ 31 - 1))) }
    ensures count { IfOk result (λ b. b.files ≤ b.file.id) }
    ensures loaded { IfOk result
        (λ b. Told (D.past disk.old) (IsStateOf config.now.user_version b.state)) }
    ensures begun { IfOk result (λ b.
        (before : ℕ)
        × (b.file ≡ numbered_file (before + 1))
        × (b.pool.highest ≡ before + 1)
        × (before < 2 ^ 31 - 1)
        × Told (D.past disk.old) (HasNumbers b.files before)
        × Works (SyncsAllBut (IsRenewed (D.past disk.old) before (before + 1)))
        config.now.file_size before (before + 1) (D.past disk.old) (D.past disk.new)) }
    ensures failed_files { OnErr result ((l : Lists)
        → l.steps ≡ []
        → HasFailedFiles config.now l (D.past disk.old) (D.past disk.new)) }
    ensures tidy { OnOk result (Told (D.past disk.new) IsTidy) }
    ensures cause { IfErr result (λ fault.
        HasOpenCause config.now fault (C.lists chronicle.new) (D.past disk.old) (D.past disk.new)
        (D.faults disk.old) (D.faults disk.new)) }
    ensures faults { OnOk result (NoneFailed (D.faults disk.old) (D.faults disk.new)) }
    ensures later { (D.faults disk.old).0 ≤ (D.faults disk.new).0 }
    ensures unstepped { IfSome (C.lists chronicle.new) (λ l. l.steps ≡ []) }
    ensures crash_safe { IfSome (C.lists chronicle.new)
        (IsCrashSafe (D.past disk.new) (D.moment disk.new) config.now.user_version) }
    ensures base { IfSome (C.lists chronicle.new)
        (λ l. IsBlank l ⊎ Told (D.past disk.old) (HasBase config.now.user_version l.base)) }
    ensures rollbacks { IfSome (C.lists chronicle.new)
        (λ l. IsBlank l ⊎ Told (D.past disk.old) (AreFirstRollbacks config.now l)) }
    ensures unnoted { IfSome (C.lists chronicle.new) (λ l. l.receipts ≡ [] → IsBlank l) }
    ensures begins { IfSome (C.lists chronicle.new)
        (λ l. BeginsBySyncs l.receipts (D.past disk.old) (D.past disk.new)) }
    ensures owed { IfSome (C.lists chronicle.new) (AreOwedToSteps config.now) }
{
    let Found {
        mut loaded,
        table,
        rollbacks,
    } = find(alloc, disk, config)?;
    let files = loaded.files.len() as u64;
    let base = mem::replace(&mut loaded.base, Items::of(Vec::new(alloc)));
    if note(chronicle, base, disk.moment()).is_err() {
        return Err(OpenFault::NoMemory);
    }
    match renew(alloc, disk, config, &loaded) {
        Ok((pool, file)) => Ok(Begun {
            table,
            pool,
            file,
            state: loaded.state,
            rollbacks,
            files,
        }),
        Err(fault) => Err(fault_of(fault)),
    }
}
