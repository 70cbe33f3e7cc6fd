//! Words that give settings, and words that are refused.

use orc_fault::NoMemory;
use orc_options::{CommandWords, Mode, Refused, SetKind, Settings, settings_of};
use std::alloc::Global;
use std::process::Abort;
use std::test::Fail;

// The words of a command line.
fn words_of(alloc: Global, words: &[&str]) -> Result<CommandWords, NoMemory> {
    let mut all = CommandWords::new(alloc);
    for word in words {
        all.push(word)?;
    }
    Ok(all)
}

// What no words say.
const DEFAULTS: Settings = Settings {
    mode: Mode::Run,
    posters: 1,
    takers: 0,
    stages: 2,
    rows: 65535,
    set: SetKind::List,
    buckets: 16,
    rest: false,
    seed: 1,
    lines: 20000,
};

// The settings of a mode that no other words say.
fn of_mode(mode: Mode) -> Settings {
    Settings { mode, ..DEFAULTS }
}

// Asks whether the words of each row give its settings.
fn give<R: Abort>(rt: &R, alloc: Global, rows: &[(&[&str], Settings)]) -> Result<(), Fail> {
    for (words, settings) in rows {
        let got = settings_of(alloc, &words_of(alloc, words)?);
        assert!(rt; got == Ok(*settings));
    }
    Ok(())
}

#[test]
fn words_give_modes(rt: HostRuntime) -> Result<(), Fail> {
    let rows: [(&[&str], Settings); 6] = [
        (
            &["--mode=stages", "--stages=6"],
            Settings {
                stages: 6,
                ..of_mode(Mode::Stages)
            },
        ),
        (
            &["--mode=make", "--seed=4294967295", "--lines", "60000"],
            Settings {
                seed: 4294967295,
                lines: 60000,
                ..of_mode(Mode::Make)
            },
        ),
        (&["--mode", "replay"], of_mode(Mode::Replay)),
        (&["--mode=audit"], of_mode(Mode::Audit)),
        (&["--mode=trial"], of_mode(Mode::Trial)),
        (&["--mode=run"], DEFAULTS),
    ];
    give(&rt, rt.alloc(), rows.as_slice())
}

#[test]
fn words_give_numbers(rt: HostRuntime) -> Result<(), Fail> {
    let one_line = Settings {
        lines: 1,
        ..DEFAULTS
    };
    let most_workers = Settings {
        posters: 8,
        takers: 7,
        rows: 8,
        ..DEFAULTS
    };
    let seven_takers = Settings {
        takers: 7,
        ..DEFAULTS
    };
    let eight_rows = Settings {
        rows: 8,
        ..DEFAULTS
    };
    let rows: [(&[&str], Settings); 6] = [
        (&["--lines=1", "--seed", "1"], one_line),
        (&[], DEFAULTS),
        (&["--posters=8", "--takers", "7", "--rows=8"], most_workers),
        (&["--posters", "1", "--takers=0", "--rows=65535"], DEFAULTS),
        (&["--takers", "+7"], seven_takers),
        (&["--rows", "0008"], eight_rows),
    ];
    give(&rt, rt.alloc(), rows.as_slice())
}

#[test]
fn words_give_sets(rt: HostRuntime) -> Result<(), Fail> {
    let split = Settings {
        set: SetKind::Split,
        buckets: 7,
        ..DEFAULTS
    };
    let one_bucket = Settings {
        buckets: 1,
        rest: true,
        ..DEFAULTS
    };
    let most_buckets = Settings {
        buckets: 256,
        ..DEFAULTS
    };
    let rows: [(&[&str], Settings); 5] = [
        (&["--set=split", "--buckets", "7"], split),
        (&["--set", "list"], DEFAULTS),
        (&["--buckets=1", "--rest", "yes"], one_bucket),
        (&["--rest=no", "--buckets", "256"], most_buckets),
        (&["--buckets=16", "--rest=no"], DEFAULTS),
    ];
    give(&rt, rt.alloc(), rows.as_slice())
}

// Words of which each is refused.
const WRONG_WORDS: [&str; 33] = [
    "--help",
    "-h",
    "--version",
    "help",
    "replay",
    "--posters=0",
    "--posters=9",
    "--posters",
    "--posters=",
    "--takers=8",
    "--takers=-1",
    "--stages=0",
    "--stages=7",
    "--rows=7",
    "--rows=65536",
    "--rows=4294967304",
    "--rows= 8",
    "--buckets=0",
    "--buckets=257",
    "--rest=maybe",
    "--rest=Yes",
    "--rest",
    "--mode=Run",
    "--mode=Trial",
    "--mode=mak",
    "--mode",
    "--row=8",
    "--seed=0",
    "--seed=4294967296",
    "--lines=0",
    "--lines=60001",
    "--line=1",
    "x",
];

// Asks whether these words are refused.
fn are_refused<R: Abort>(rt: &R, alloc: Global, words: &[&str]) -> Result<(), Fail> {
    let got = settings_of(alloc, &words_of(alloc, words)?);
    assert!(rt; got == Err(Refused::Words), "at {words:?}");
    Ok(())
}

#[test]
fn words_are_refused(rt: HostRuntime) -> Result<(), Fail> {
    for word in WRONG_WORDS {
        are_refused(&rt, rt.alloc(), &[word])?;
    }
    are_refused(&rt, rt.alloc(), &["--rows=8", "--rows=8"])
}
