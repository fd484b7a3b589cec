//! Measures the crates of the journal: `amq_bench MEASURE SIZE REPEATS [time]`.
//!
//! Each measure prepares what it needs, does its work so often, and prints one line: what it went over,
//! and with `time` the microseconds of its shortest repeat. `all` takes each measure in turn.
#![tactic(auto)]

mod encode;
mod load_live;
mod load_plain;
mod load_transactions;
mod loads;
mod measure;
mod numbers;
mod outcome;
mod parse_script;
mod print_report;
mod record_file;
mod request;
mod scan_filling;
mod scan_records;
mod scans;
mod transactions;

use anyhow::Result;
use measure::{MEASURES, Measure};
use outcome::Outcome;
use request::{Chosen, Request};
use std::env::{self, Env};
use std::rt::Clock;

fn main(rt: HostRuntime) -> Result<()> {
    run(&rt)
}

fn run<R: AllocGlobal + Clock + Env + Print>(rt: &R) -> Result<()> {
    let words: Vec<String> = env::args(rt)?.skip(1).collect(rt.alloc())?;
    let words: Vec<&str> = words.iter().map(|word| word.as_str()).collect(rt.alloc())?;
    let Some(request) = Request::of(words.as_slice()) else {
        anyhow::bail!("amq_bench MEASURE SIZE REPEATS [time]");
    };
    match request.chosen {
        Chosen::One(measure) => print_measure(rt, measure, &request),
        Chosen::All => {
            for measure in MEASURES {
                print_measure(rt, measure, &request)?;
            }
            Ok(())
        }
    }
}

fn print_measure<R: AllocGlobal + Clock + Print>(
    rt: &R,
    measure: Measure,
    request: &Request,
) -> Result<()> {
    let outcome = outcome_of(rt, measure, request)?;
    let name = measure.name();
    print!(rt; "{name} {outcome}")?;
    if request.timed {
        let micros = outcome.micros;
        print!(rt; " microseconds {micros}")?;
    }
    println!(rt)?;
    Ok(())
}

fn outcome_of<R: AllocGlobal + Clock>(
    rt: &R,
    measure: Measure,
    request: &Request,
) -> Result<Outcome> {
    let Request { size, repeats, .. } = *request;
    match measure {
        Measure::ScanRecords => scan_records::scan_records(rt, size, repeats),
        Measure::ScanFilling => scan_filling::scan_filling(rt, size, repeats),
        Measure::Encode => encode::encode(rt, size, repeats),
        Measure::LoadTransactions => load_transactions::load_transactions(rt, size, repeats),
        Measure::LoadLive => load_live::load_live(rt, size, repeats),
        Measure::LoadPlain => load_plain::load_plain(rt, size, repeats),
        Measure::ParseScript => parse_script::parse_script(rt, size, repeats),
        Measure::PrintReport => print_report::print_report(rt, size, repeats),
    }
}
