//! The names that a journal gives its files.
ghost use Rattle.std.specs.Prelude.{◌≡◌, ◌<◌, ◌^◌, IfOk};
ghost use Rattle.amq_model.specs.Name.{HasNameForm};
ghost use Rattle.amq_header.specs.Classes.{data_name, compacted_name, temporary_name};

use amq_model::{Name, NoMemory};
use std::alloc::Global;

/// A data file's name, without leading zeros.
pub fn data_name(alloc: Global, number: u64) -> Result<Name, NoMemory>
    requires { number < 2 ^ 63 }
    ensures { IfOk result (λ name. name ≡ data_name number) }
{
    match format!(in alloc; "activemq-data-{number}.amq") {
        Ok(text) => named(alloc, text.as_str()),
        Err(_) => Err(NoMemory),
    }
}

/// A compacted file's name, without leading zeros.
pub fn compacted_name(alloc: Global, number: u64) -> Result<Name, NoMemory>
    requires { number < 2 ^ 63 }
    ensures { IfOk result (λ name. name ≡ compacted_name number) }
{
    match format!(in alloc; "activemq-data-{number}.amq.cmp") {
        Ok(text) => named(alloc, text.as_str()),
        Err(_) => Err(NoMemory),
    }
}

/// The name under which a data file is prepared, without leading zeros.
pub fn temporary_name(alloc: Global, number: u64) -> Result<Name, NoMemory>
    requires { number < 2 ^ 63 }
    ensures { IfOk result (λ name. name ≡ temporary_name number) }
{
    match format!(in alloc; "activemq-data-{number}.amq.tmp") {
        Ok(text) => named(alloc, text.as_str()),
        Err(_) => Err(NoMemory),
    }
}

/// The name with this text.
fn named(alloc: Global, text: &str) -> Result<Name, NoMemory>
    requires { HasNameForm text.now }
    ensures { IfOk result (λ name. name ≡ text.now) }
{
    match Name::of(alloc, text)? {
        Some(name) => Ok(name),
        None => unreachable!(),
    }
}
