use crate::{Mode, Script, ScriptCause, ScriptFault, parse};
use amq_model::{Bytes, Command, Items, Line, Name};
use std::alloc::{AllocError, Global};
use std::process::Abort;
use std::test::Fail;

/// How many lines each producer has, or the first wrong line and what is wrong with it.
type Told = Result<&'static [usize], (u64, ScriptCause)>;

/// Texts, each so many times one behind the other, and what they are in this mode.
const ROWS: &[(&str, usize, Mode, Told)] = &[
    ("", 1, Mode::Run, Ok(&[])),
    (
        "# two\nproducer\nflush\nbegin a\ncommit a\nproducer\nbind a 9\n",
        1,
        Mode::Run,
        Ok(&[3, 1]),
    ),
    (
        "producer\nflush\nbegin a\nproducer\n\nproducer\nupdatetx",
        1,
        Mode::Replay,
        Err((1, ScriptCause::UnknownWord)),
    ),
    ("producer\n", 64, Mode::Run, Ok(&[0; 64])),
    ("producer\n", 65, Mode::Run, Err((65, ScriptCause::Section))),
    (
        "flush\nflush\n\n# x\nfrob 1\nfrob 2",
        1,
        Mode::Replay,
        Err((5, ScriptCause::UnknownWord)),
    ),
    (
        "producer",
        1,
        Mode::Replay,
        Err((1, ScriptCause::UnknownWord)),
    ),
    ("tick 1", 1, Mode::Run, Err((1, ScriptCause::UnknownWord))),
    (" # x", 1, Mode::Replay, Err((1, ScriptCause::UnknownWord))),
    (
        "flush\r",
        1,
        Mode::Replay,
        Err((1, ScriptCause::UnknownWord)),
    ),
    (
        "add\t1 7 -",
        1,
        Mode::Replay,
        Err((1, ScriptCause::UnknownWord)),
    ),
    ("\nadd 1 7 -", 1, Mode::Run, Err((2, ScriptCause::Section))),
    ("add 1 7", 1, Mode::Replay, Err((1, ScriptCause::Arguments))),
    ("flush 1", 1, Mode::Replay, Err((1, ScriptCause::Arguments))),
    ("begin A", 1, Mode::Replay, Err((1, ScriptCause::Label))),
    (
        "begin abcdefghijklmnopq",
        1,
        Mode::Replay,
        Err((1, ScriptCause::Label)),
    ),
    ("commit a", 1, Mode::Replay, Err((1, ScriptCause::Unbegun))),
    (
        "addtx a x y z",
        1,
        Mode::Replay,
        Err((1, ScriptCause::Unbegun)),
    ),
    (
        "producer\nbegin a\nproducer\ncommit a",
        1,
        Mode::Run,
        Err((4, ScriptCause::Unbegun)),
    ),
    (
        "add 1 256 -",
        1,
        Mode::Replay,
        Err((1, ScriptCause::Number)),
    ),
    (
        "add 9223372036854775808 7 -",
        1,
        Mode::Replay,
        Err((1, ScriptCause::Number)),
    ),
    (
        "add 00000000000000000001 7 -",
        1,
        Mode::Replay,
        Err((1, ScriptCause::Number)),
    ),
    (
        "add 1 0007 z",
        1,
        Mode::Replay,
        Err((1, ScriptCause::Number)),
    ),
    ("step 0", 1, Mode::Replay, Err((1, ScriptCause::Number))),
    (
        "step 1000001",
        1,
        Mode::Replay,
        Err((1, ScriptCause::Number)),
    ),
    ("add 1 7 6", 1, Mode::Replay, Err((1, ScriptCause::Hex))),
    (
        "add 9223372036854775807 007 6g",
        1,
        Mode::Replay,
        Err((1, ScriptCause::Hex)),
    ),
];

/// How many lines each producer has.
fn counts(alloc: Global, script: &Script) -> Result<Vec<usize>, AllocError> {
    let mut counts = Vec::new(alloc);
    for lines in script.producers.as_slice() {
        counts.push(lines.len())?;
    }
    Ok(counts)
}

/// The text is this.
fn check(
    rt: &impl Abort,
    alloc: Global,
    text: &str,
    mode: Mode,
    told: Told,
) -> Result<(), AllocError> {
    match parse(alloc, text.as_bytes(), mode) {
        Ok(script) => {
            let counts = counts(alloc, &script)?;
            assert_eq!(rt; Ok(counts.as_slice()), told, "{text}");
        }
        Err(fault) => {
            let wanted = told
                .err()
                .map(|(line, cause)| ScriptFault::At { line, cause });
            assert_eq!(rt; Some(fault), wanted, "{text}");
        }
    }
    Ok(())
}

fn label(alloc: Global, text: &str) -> Result<Name, Fail> {
    Ok(Name::of(alloc, text)?.ok_or("no label")?)
}

fn bytes(alloc: Global, bytes: &[u8]) -> Result<Bytes, AllocError> {
    Ok(Bytes::of(bytes.to_vec(alloc)?))
}

fn one_producer(alloc: Global, lines: Vec<Line>) -> Result<Script, Fail> {
    let mut producers = Vec::new(alloc);
    producers.push(Items::of(lines))?;
    Ok(Script {
        producers: Items::of(producers),
    })
}

#[test]
fn replays(rt: HostRuntime) -> Result<(), Fail> {
    let alloc = rt.alloc();
    let text =
        "# row\n\nadd 1 7 6869\n  update 18 255 aF  \nbegin a\naddtx a 3 7 -\nprepare a 0102\ndeletetx a 4 -\nbind b 5\nrollback b\ncommit a\n   \ndelete 1\nflush\ntick 3\nreclaim\ncompact\nstep 1000000";
    let mut lines = Vec::new(alloc);
    lines.push(Line::Plain(Command::Add {
        id: 1,
        user_type: 7,
        body: bytes(alloc, b"hi")?,
    }))?;
    lines.push(Line::Plain(Command::Update {
        id: 18,
        user_type: 255,
        body: bytes(alloc, &[0xaf])?,
    }))?;
    lines.push(Line::Labelled {
        label: label(alloc, "a")?,
        command: Command::Begin,
    })?;
    lines.push(Line::Labelled {
        label: label(alloc, "a")?,
        command: Command::AddTx {
            tx: 0,
            id: 3,
            user_type: 7,
            body: bytes(alloc, &[])?,
        },
    })?;
    lines.push(Line::Labelled {
        label: label(alloc, "a")?,
        command: Command::Prepare {
            tx: 0,
            extra: bytes(alloc, &[1, 2])?,
        },
    })?;
    lines.push(Line::Labelled {
        label: label(alloc, "a")?,
        command: Command::DeleteTx {
            tx: 0,
            id: 4,
            body: bytes(alloc, &[])?,
        },
    })?;
    lines.push(Line::Bind {
        label: label(alloc, "b")?,
        tx: 5,
    })?;
    lines.push(Line::Labelled {
        label: label(alloc, "b")?,
        command: Command::Rollback { tx: 0 },
    })?;
    lines.push(Line::Labelled {
        label: label(alloc, "a")?,
        command: Command::Commit { tx: 0 },
    })?;
    lines.push(Line::Plain(Command::Delete { id: 1 }))?;
    lines.push(Line::Plain(Command::Flush))?;
    lines.push(Line::Tick(3))?;
    lines.push(Line::Reclaim)?;
    lines.push(Line::Compact)?;
    lines.push(Line::Step(1_000_000))?;
    let script = parse(alloc, text.as_bytes(), Mode::Replay)?;
    assert_eq!(rt; script, one_producer(alloc, lines)?);
    Ok(())
}

#[test]
fn texts_by_lines(rt: HostRuntime) -> Result<(), Fail> {
    let alloc = rt.alloc();
    for (text, times, mode, told) in ROWS {
        let mut whole = String::new(alloc);
        for _ in 0..*times {
            whole.push_str(text)?;
        }
        check(&rt, alloc, whole.as_str(), *mode, *told)?;
    }
    Ok(())
}

#[test]
fn fault_text(rt: HostRuntime) -> Result<(), Fail> {
    let fault = ScriptFault::At {
        line: 5,
        cause: ScriptCause::Unbegun,
    };
    let text = fault.to_string(rt.alloc())?;
    assert_eq!(rt; text.as_str(), "script line 5: label not begun");
    Ok(())
}
