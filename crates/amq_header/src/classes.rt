//! What a file's name says.
ghost use Rattle.std.specs.Prelude.{◌≡◌};
ghost use Rattle.amq_model.specs.Names.{data_number, compacted_number};
ghost use Rattle.amq_header.specs.Classes.{IsOfClass, number_in, temporary_number};

use amq_model::number_spelled;

const DATA_FRONT: &[u8] = b"activemq-data-";

const DATA_BACK: &[u8] = b".amq";

const COMPACTED_BACK: &[u8] = b".cmp";

const TEMPORARY_BACK: &[u8] = b".tmp";

const CONTROL_NAME: &[u8] = b"journal-rename-control.ctr";

/// What a name is in a journal's directory, with the number N in it.
#[derive(Clone, Copy, Debug, PartialEq, Eq)]
pub enum FileClass {
    /// A data file, `activemq-data-N.amq`.
    DataFile(u64),
    /// A compacted file, `activemq-data-N.amq.cmp`.
    Compacted(u64),
    /// A data file's, a compacted file's or the control file's name with `.tmp` behind it once. The
    /// control file's has no number.
    Temporary(Option<u64>),
    /// The control file, `journal-rename-control.ctr`.
    Control,
    /// Every other name. Such files are never read or changed.
    Other,
}

/// The class of a name. N is 1 to 19 digits, at most 2^63 - 1, and may have leading zeros.
pub fn file_class(name: &str) -> FileClass
    ensures class { IsOfClass name.now result }
    ensures only { (class : FileClass) → IsOfClass name.now class → result ≡ class }
{
    let name = name.as_bytes();
    if let Some(number) = data_number(name) {
        return FileClass::DataFile(number);
    }
    if let Some(number) = compacted_number(name) {
        return FileClass::Compacted(number);
    }
    if let Some(number) = temporary_number(name) {
        return FileClass::Temporary(number);
    }
    if name == CONTROL_NAME {
        FileClass::Control
    } else {
        FileClass::Other
    }
}

/// The N of a data file's name.
fn data_number(name: &[u8]) -> Option<u64>
    ensures { result ≡ data_number name.now }
{
    let rest = name.strip_prefix(DATA_FRONT)?;
    number_spelled(rest.strip_suffix(DATA_BACK)?)
}

/// The N of a compacted file's name.
fn compacted_number(name: &[u8]) -> Option<u64>
    ensures { result ≡ compacted_number name.now }
{
    data_number(name.strip_suffix(COMPACTED_BACK)?)
}

/// The N of a temporary name, where the name before `.tmp` has one.
fn temporary_number(name: &[u8]) -> Option<Option<u64>>
    ensures { result ≡ temporary_number name.now }
{
    number_in(name.strip_suffix(TEMPORARY_BACK)?)
}

/// The N of a data file's or a compacted file's name; the control file's has none.
fn number_in(name: &[u8]) -> Option<Option<u64>>
    ensures { result ≡ number_in name.now }
{
    if let Some(number) = data_number(name) {
        return Some(Some(number));
    }
    if let Some(number) = compacted_number(name) {
        return Some(Some(number));
    }
    if name == CONTROL_NAME {
        Some(None)
    } else {
        None
    }
}
