use crate::script_of;
use amq_model::{Command, Line};
use amq_script::{Mode, Script, parse};
use std::test::Fail;

/// How many lines there are, and how many of them are adds, deletes, flushes and reclaims.
fn counts(script: &Script) -> [usize; 5] {
    let mut counts = [0usize; 5];
    for producer in script.producers.as_slice() {
        for line in producer.as_slice() {
            counts[0] = counts[0].saturating_add(1);
            let kind = match line {
                Line::Labelled {
                    command: Command::AddTx { .. },
                    ..
                } => 1,
                Line::Labelled {
                    command: Command::DeleteTx { .. },
                    ..
                } => 2,
                Line::Plain(Command::Flush) => 3,
                Line::Reclaim => 4,
                _ => continue,
            };
            counts[kind] = counts[kind].saturating_add(1);
        }
    }
    counts
}

/// Whether the last lines delete id 240, commit that, flush and reclaim.
fn ends(script: &Script) -> bool {
    let Some(lines) = script.producers.as_slice().first() else {
        return false;
    };
    matches!(
        lines.as_slice(),
        [
            ..,
            Line::Labelled {
                command: Command::DeleteTx { id: 240, .. },
                ..
            },
            Line::Labelled {
                command: Command::Commit { .. },
                ..
            },
            Line::Plain(Command::Flush),
            Line::Reclaim
        ]
    )
}

#[test]
fn as_read(rt: HostRuntime) -> Result<(), Fail> {
    let alloc = rt.alloc();
    let rows = [
        (0, ""),
        (
            2,
            "begin t\naddtx t 1 31 ecedeeeff0f1f2f3f4f5f6f7f8f9fafbfcfdfeff000102030405060708090a0b0c0d0e0f101112131415161718191a1b1c1d1e1f202122232425262728292a2b2c2d2e2f303132333435363738393a3b3c3d3e3f404142434445464748494a4b4c4d4e4f505152535455565758595a5b5c5d5e5f606162636465666768696a6b6c6d6e6f7071727374757677\ncommit t\nbegin t\naddtx t 2 31 aaabacadaeafb0b1b2b3b4b5b6b7b8b9babbbcbdbebfc0c1c2c3c4c5c6c7c8c9cacbcccdcecfd0d1d2d3d4d5d6d7d8d9dadbdcdddedfe0e1e2e3e4e5e6e7e8e9eaebecedeeeff0f1f2f3f4f5f6f7f8f9fafb\ncommit t\n",
        ),
    ];
    for (number, text) in rows {
        let script = parse(alloc, text.as_bytes(), Mode::Replay)?;
        assert_eq!(rt; script_of(alloc, number)?, script, "{number}");
    }
    Ok(())
}

/// For a number of adds, the lines by kind, and whether they end as those of 256 adds do.
#[test]
fn lines_by_kind(rt: HostRuntime) -> Result<(), Fail> {
    let rows = [
        (16, [48, 16, 0, 0, 0], false),
        (20, [72, 20, 4, 0, 0], false),
        (63, [330, 63, 47, 0, 0], false),
        (256, [1493, 256, 240, 4, 1], true),
    ];
    for (number, expected, last) in rows {
        let script = script_of(rt.alloc(), number)?;
        assert_eq!(rt; counts(&script), expected, "{number}");
        assert_eq!(rt; ends(&script), last, "{number}");
    }
    Ok(())
}
