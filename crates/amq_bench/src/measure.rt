/// What is measured.
#[derive(Clone, Copy, Debug, PartialEq, Eq)]
pub enum Measure {
    /// A scan of so many bytes of records one behind the other.
    ScanRecords,
    /// A scan of so many bytes of filling.
    ScanFilling,
    /// The writing of so many bytes of records.
    Encode,
    /// A load of so many records: transactions of one record, and for each a later one that deletes it,
    /// but for the last 16.
    LoadTransactions,
    /// A load of so many records: transactions of one record, which stay live.
    LoadLive,
    /// A load of so many adds and deletes without transactions, in random order of ids.
    LoadPlain,
    /// The reading of a script of so many bytes, of `addtx` lines.
    ParseScript,
    /// The report of so many live records.
    PrintReport,
}

pub const MEASURES: [Measure; 8] = [
    Measure::ScanRecords,
    Measure::ScanFilling,
    Measure::Encode,
    Measure::LoadTransactions,
    Measure::LoadLive,
    Measure::LoadPlain,
    Measure::ParseScript,
    Measure::PrintReport,
];

impl Measure {
    /// Its name on the command line.
    pub fn name(self) -> &'static str {
        match self {
            Measure::ScanRecords => "scan-records",
            Measure::ScanFilling => "scan-filling",
            Measure::Encode => "encode",
            Measure::LoadTransactions => "load-transactions",
            Measure::LoadLive => "load-live",
            Measure::LoadPlain => "load-plain",
            Measure::ParseScript => "parse-script",
            Measure::PrintReport => "print-report",
        }
    }

    pub fn named(name: &str) -> Option<Measure> {
        MEASURES.into_iter().find(|measure| measure.name() == name)
    }
}
