ghost use Rattle.std.specs.Prelude.{◌≡◌, ◌+◌, ◌<◌, ◌^◌, ◌≤◌, ◌&&◌, nat_le, map, IfOk};
ghost use Rattle.amq_model.specs.Scan.{IsScan};
ghost use Rattle.amq_record.specs.Refs.{spot_of};

use amq_model::NoMemory;
use amq_record::{Spot, record_at};
use std::alloc::Global;

/// The records of a file, ascending.
///
/// `bytes` are the whole file's, `fid` the lowest 31 bits of its id, `version` the format version in its
/// header. Where no record stands, reading goes on one byte further.
pub fn scan<'a>(
    alloc: Global,
    bytes: &'a [u8],
    fid: u32,
    version: u32,
) -> Result<Vec<Spot<'a>>, NoMemory>
    requires version_read { version ≡ 2 }
    requires file_id { fid < 2 ^ 31 }
    ensures { IfOk result (λ v. IsScan bytes.now fid version (map spot_of v.items)) }
{
    let mut spots = Vec::new(alloc);
    let mut place = 16;
    while place < bytes.len() {
        if !is_kind(bytes[place]) {
            place += 1;
            continue;
        }
        match record_at(bytes, fid, version, place) {
            Some(spot) => {
                place += spot.len as usize;
                if spots.push(spot).is_err() {
                    return Err(NoMemory);
                }
            }
            None => place += 1,
        }
    }
    Ok(spots)
}

/// Whether a record can begin with this byte.
fn is_kind(byte: u8) -> bool
    ensures { result ≡ (nat_le 11 byte && nat_le byte 19) }
{
    (11..=19).contains(&byte)
}
