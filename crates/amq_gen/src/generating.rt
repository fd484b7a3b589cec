ghost use Rattle.std.specs.Prelude.{◌≡◌, ◌≤◌, IfOk, codes};
ghost use Rattle.std.specs.List.{flat_map, range_with_len};
ghost use Rattle.amq_model.specs.Generator.{r_at, lines_made, made_from};

use crate::lines::push_record;
use crate::sequence;
use amq_model::{Items, Line, Name, NoMemory};
use amq_script::Script;
use std::alloc::Global;

/// The replay script of a number, at most 100,000: that many records, each put by a transaction of its
/// own, and each but the last 16 deleted by another.
pub fn script_of(alloc: Global, number: u64) -> Result<Script, NoMemory>
    requires { number ≤ 100000 }
    ensures { IfOk result (λ script. script.producers ≡ made_from number) }
{
    let lines = lines(alloc, number)?;
    let mut producers = Vec::new(alloc);
    match producers.push(Items::of(lines)) {
        Ok(()) => Ok(Script {
            producers: Items::of(producers),
        }),
        Err(_) => Err(NoMemory),
    }
}

/// The lines of all records.
fn lines(alloc: Global, number: u64) -> Result<Vec<Line>, NoMemory>
    requires { number ≤ 100000 }
    ensures { IfOk result (λ lines. lines.items
        ≡ flat_map (λ k. lines_made k (r_at number k)) (range_with_len 1 number)) }
{
    let label = label(alloc)?;
    let mut lines = Vec::new(alloc);
    let mut x = number;
    for made in 0..number {
        x = sequence::next(x);
        push_record(alloc, &mut lines, &label, made + 1, sequence::upper_bits(x))?;
    }
    Ok(lines)
}

/// The label of all transactions.
fn label(alloc: Global) -> Result<Name, NoMemory>
    ensures { IfOk result (λ label. label ≡ codes "t") }
{
    match Name::of(alloc, "t") {
        Ok(Some(label)) => Ok(label),
        Ok(None) => unreachable!(),
        Err(_) => Err(NoMemory),
    }
}
