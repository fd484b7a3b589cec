//! Loading a directory.
ghost use Rattle.std.specs.Prelude.{◌≡◌, ◌≤◌, ◌++◌, false, map, filter, None, IfOk, OnOk};
ghost use Rattle.std.specs.List.{list_any};
ghost use Rattle.std.specs.Option.{option_to_list};
ghost use Rattle.amq_model.specs.Names.{same, control_name};
ghost use Rattle.amq_model.specs.Effect.{result_of};
ghost use Rattle.amq_model.specs.Ids.{live_numbers};
ghost use Rattle.amq_model.specs.Open.{open_txs, highest_of};
ghost use Rattle.amq_model.specs.Leaves.{Leaves, Unchanged, OnlyAsks, HasSettledNames, AllAgree, IsListedSame, Told, IsThere};
ghost use Rattle.amq_model.specs.LoadCalls.{Makes};
ghost use Rattle.amq_model.specs.InFiles.{AreInFiles};
ghost use Rattle.amq_io.specs.Listed.{IsListed};
ghost use Rattle.amq_loader.specs.Asked.{HasLoadCalls, HasListCall, HasReads, HasRead, sizes};
ghost use Rattle.amq_loader.specs.Loads.{is_leftover, IsLoad, IsLoadOf, IsStateOf};
ghost use Rattle.amq_loader.specs.Faults.{HasLoadFault};
ghost use Rattle.amq_loader.specs.Causes.{HasCauseBy};
ghost use Rattle.amq_loader.specs.Parts.{IsListedFile, IsFoundIn, IsFaultIn, AreFound, IsFirstFault, AreLoaded, IsFault, all_records, highest_in};

use crate::names::{has_control, highest_number, is_data, leftovers_of};
use crate::part::{MAX_LEN, Part, part_of, too_long};
use crate::parts::{check_ids, join, sort_by_id};
use crate::{LoadFault, Loaded};
use amq_io::{Disk, FileInfo, faults};
use amq_model::{Items, LoadState, NoMemory};
use amq_state::{Loading, Summary};
use std::alloc::Global;

/// The length of a data file's header, in bytes.
const HEADER_LEN: u64 = 16;

/// Loads a directory: its data files, all their records, and what they mean.
///
/// It lists the directory once, and then reads each data file of 16 to 268,435,456 bytes once, in the order
/// of the names, until it finds a fault. It makes no other call.
pub fn load<D: Disk>(alloc: Global, disk: &mut D, user_version: u32) -> Result<Loaded, LoadFault>
    ensures every { IfOk result (IsLoad user_version) }
    ensures base_in_order { IfOk result (λ l. AreInFiles l.files l.base) }
    ensures told { IfOk result (λ l. Told (D.past disk.old) (IsLoadOf user_version l)) }
    ensures cause { HasLoadFault user_version result (D.past disk.old) (D.faults disk.old) (D.faults disk.new) }
    ensures asks { OnlyAsks (D.past disk.old) (D.past disk.new) }
    ensures calls { Makes (HasLoadCalls result) (D.past disk.old) (D.past disk.new) }
    ensures only_asks { Leaves Unchanged Unchanged (D.past disk.old) (D.past disk.new) }
    ensures settled { OnOk result (HasSettledNames (D.past disk.new)) }
    ensures listed { OnOk result (AllAgree (D.past disk.new) IsListedSame) }
    ensures later { D.moment disk.old ≤ D.moment disk.new }
{
    let infos = list_files(disk)?;
    let parts = read_directory(alloc, disk, &infos, user_version)?;
    Ok(loaded(alloc, &infos, parts)?)
}

/// The live records and the transactions in doubt of a directory, in less memory than `load` takes.
///
/// It lists the directory once, and then reads each data file of 16 to 268,435,456 bytes once, in the order
/// of the names, until it finds a fault. It makes no other call.
pub fn load_state<D: Disk>(
    alloc: Global,
    disk: &mut D,
    user_version: u32,
) -> Result<LoadState, LoadFault>
    ensures told { IfOk result (λ state. Told (D.past disk.old) (IsStateOf user_version state)) }
    ensures cause { HasLoadFault user_version result (D.past disk.old) (D.faults disk.old) (D.faults disk.new) }
    ensures asks { OnlyAsks (D.past disk.old) (D.past disk.new) }
    ensures calls { Makes (HasLoadCalls result) (D.past disk.old) (D.past disk.new) }
    ensures only_asks { Leaves Unchanged Unchanged (D.past disk.old) (D.past disk.new) }
    ensures later { D.moment disk.old ≤ D.moment disk.new }
{
    let infos = list_files(disk)?;
    let parts = read_directory(alloc, disk, &infos, user_version)?;
    Ok(state_of(alloc, parts)?)
}

/// What the files of a directory give when they are loaded.
fn loaded(alloc: Global, infos: &[FileInfo], parts: Vec<Part>) -> Result<Loaded, NoMemory>
    ensures files { IfOk result (λ l. l.files ≡ map (λ p. p.file) parts.items) }
    ensures base { IfOk result (λ l. l.base ≡ all_records parts.items) }
    ensures state { IfOk result (λ l. l.state ≡ result_of (all_records parts.items)) }
    ensures live { IfOk result (λ l. l.live ≡ live_numbers (all_records parts.items)) }
    ensures opened { IfOk result (λ l. l.open_txs ≡ open_txs (all_records parts.items)) }
    ensures highest_tx { IfOk result (λ l. l.highest_tx ≡ highest_of (all_records parts.items)) }
    ensures highest_file { IfOk result (λ l. l.highest_file ≡ highest_in parts.items (map (λ i. i.name) infos.now)) }
    ensures control { IfOk result (λ l. l.control ≡ None) }
    ensures leftovers { IfOk result (λ l. l.leftovers ≡ filter is_leftover (map (λ i. i.name) infos.now)) }
{
    let leftovers = leftovers_of(alloc, infos)?;
    let highest_file = highest_number(&parts, infos);
    let (files, records) = join(alloc, parts)?;
    let loading = Loading::of_records(alloc, records);
    let Summary {
        state,
        live,
        open_txs,
        highest_tx,
    } = loading.summary()?;
    Ok(Loaded {
        files: Items::of(files),
        base: Items::of(loading.into_records()),
        state,
        live,
        open_txs,
        highest_tx,
        highest_file,
        control: None,
        leftovers: Items::of(leftovers),
    })
}

/// The live records and the transactions in doubt of files, whose records are moved there.
fn state_of(alloc: Global, parts: Vec<Part>) -> Result<LoadState, NoMemory>
    ensures { IfOk result (λ s. s ≡ result_of (all_records parts.items)) }
{
    let (_, records) = join(alloc, parts)?;
    Loading::of_records(alloc, records).finish()
}

/// The files of a directory that has no control file.
fn list_files<D: Disk>(disk: &mut D) -> Result<Vec<FileInfo>, LoadFault>
    ensures uncontrolled { IfOk result (λ infos. list_any (λ i. same i.name control_name) infos.items ≡ false) }
    ensures listed { IfOk result (λ infos. Told (D.past disk.old) (IsListed infos.items)) }
    ensures cause { HasCauseBy (λ _. ⊥) (Told (D.past disk.old) (IsThere control_name)) result (D.faults disk.old) (D.faults disk.new) }
    ensures asks { OnlyAsks (D.past disk.old) (D.past disk.new) }
    ensures calls { Makes (HasListCall result) (D.past disk.old) (D.past disk.new) }
    ensures only_asks { Leaves Unchanged Unchanged (D.past disk.old) (D.past disk.new) }
    ensures settled { OnOk result (HasSettledNames (D.past disk.new)) }
    ensures same { OnOk result (AllAgree (D.past disk.new) IsListedSame) }
    ensures later { D.moment disk.old ≤ D.moment disk.new }
{
    let infos = faults::list(disk)?;
    if has_control(&infos) {
        return Err(LoadFault::NotBuilt);
    }
    Ok(infos)
}

/// What is found in the files of a directory that has no control file, ascending by id.
fn read_directory<D: Disk>(
    alloc: Global,
    disk: &mut D,
    infos: &[FileInfo],
    user_version: u32,
) -> Result<Vec<Part>, LoadFault>
    requires listed { Told (D.past disk.old) (IsListed infos.now) }
    ensures loaded { IfOk result (λ parts. AreLoaded user_version (map (λ i. i.name) infos.now) (D.past disk.old) parts.items) }
    ensures cause { HasCauseBy (λ found. Told (D.past disk.old) (IsFault user_version found)) ⊥ result (D.faults disk.old) (D.faults disk.new) }
    ensures asks { OnlyAsks (D.past disk.old) (D.past disk.new) }
    ensures calls { Makes (HasReads result (sizes infos.now)) (D.past disk.old) (D.past disk.new) }
    ensures only_asks { Leaves Unchanged Unchanged (D.past disk.old) (D.past disk.new) }
    ensures later { D.moment disk.old ≤ D.moment disk.new }
{
    let mut parts = read_files(alloc, disk, infos, user_version)?;
    sort_by_id(&mut parts)?;
    check_ids(&parts)?;
    Ok(parts)
}

/// What is found in the files, in the order of their names.
fn read_files<D: Disk>(
    alloc: Global,
    disk: &mut D,
    infos: &[FileInfo],
    user_version: u32,
) -> Result<Vec<Part>, LoadFault>
    requires listed { Told (D.past disk.old) (IsListed infos.now) }
    ensures found { IfOk result (λ parts. AreFound user_version (map (λ i. i.name) infos.now) (D.past disk.old) parts.items) }
    ensures cause { HasCauseBy (λ found. Told (D.past disk.old) (IsFirstFault user_version found)) ⊥ result (D.faults disk.old) (D.faults disk.new) }
    ensures asks { OnlyAsks (D.past disk.old) (D.past disk.new) }
    ensures calls { Makes (HasReads result (sizes infos.now)) (D.past disk.old) (D.past disk.new) }
    ensures only_asks { Leaves Unchanged Unchanged (D.past disk.old) (D.past disk.new) }
    ensures later { D.moment disk.old ≤ D.moment disk.new }
{
    let mut parts = Vec::new(alloc);
    for info in infos {
        let found = read_file(alloc, disk, info, user_version)?;
        keep(found, &mut parts)?;
    }
    Ok(parts)
}

/// Adds what was found, if there is something.
fn keep(found: Option<Part>, parts: &mut Vec<Part>) -> Result<(), NoMemory>
    ensures { OnOk result (parts.new.items ≡ parts.old.items ++ option_to_list found) }
{
    if let Some(part) = found
        && parts.push(part).is_err()
    {
        return Err(NoMemory);
    }
    Ok(())
}

/// What is found in a file of the directory; `None` where it is no data file, or too short for a header.
fn read_file<D: Disk>(
    alloc: Global,
    disk: &mut D,
    info: &FileInfo,
    user_version: u32,
) -> Result<Option<Part>, LoadFault>
    requires listed { Told (D.past disk.old) (IsListedFile info.now) }
    ensures found { IfOk result (IsFoundIn user_version info.now.name (D.past disk.old)) }
    ensures cause { HasCauseBy (λ found. Told (D.past disk.old) (IsFaultIn user_version info.now.name found)) ⊥ result (D.faults disk.old) (D.faults disk.new) }
    ensures asks { OnlyAsks (D.past disk.old) (D.past disk.new) }
    ensures calls { Makes (HasRead result info.now.name info.now.len) (D.past disk.old) (D.past disk.new) }
    ensures only_asks { Leaves Unchanged Unchanged (D.past disk.old) (D.past disk.new) }
    ensures later { D.moment disk.old ≤ D.moment disk.new }
{
    if !is_data(&info.name) || info.len < HEADER_LEN {
        return Ok(None);
    }
    if info.len > MAX_LEN {
        return Err(too_long(&info.name, info.len));
    }
    let bytes = faults::read(disk, info.name.as_str())?;
    part_of(alloc, &info.name, &bytes, user_version)
}
