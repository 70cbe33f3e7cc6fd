//! Words that give settings, and words that are refused.

use super::asked;
use orc_stress::{Domain, Kind, Refused, Stop};
use std::test::Fail;

// Without words the settings are those that the usage names.
#[test]
fn no_words_mean_these(rt: HostRuntime) -> Result<(), Fail> {
    let usual = asked(
        rt.alloc(),
        &[
            "--container=queue",
            "--domain=reclaiming",
            "--mix=pairs",
            "--threads=4",
            "--agents=4",
            "--calls=60000",
            "--turns=64",
            "--rows=65535",
            "--roots=16",
            "--keys=1000",
            "--seed=1",
        ],
    )?;
    assert!(rt; usual.is_ok());
    assert!(rt; asked(rt.alloc(), &[])? == usual);
    Ok(())
}

#[test]
fn words_give_settings(rt: HostRuntime) -> Result<(), Fail> {
    let words = [
        "--container=set",
        "--domain",
        "plain",
        "--mix=34/33/33",
        "--threads",
        "3",
        "--stop=marked",
        "--turns=1",
        "--untimed",
        "--rows=65",
        "--roots=257",
    ];
    let Ok(settings) = asked(rt.alloc(), words.as_slice())? else {
        panic!(rt; "refused")
    };
    let kinds = (settings.container, settings.domain, settings.stop);
    assert!(rt; kinds == (Kind::Set, Domain::Plain, Stop::Marked));
    assert_eq!(rt;
        (
            settings.rows,
            settings.roots,
            settings.turns,
            settings.times
        ),
        (65, 257, 1, false)
    );
    let plan = settings.plan;
    assert_eq!(rt;
        (settings.agents, plan.threads, plan.stalls, plan.sweeps),
        (4, 3, true, false)
    );
    Ok(())
}

#[test]
fn words_are_refused(rt: HostRuntime) -> Result<(), Fail> {
    let refused: [(&[&str], Refused); 9] = [
        (&["--threads=17"], Refused::Words),
        (&["--container", "stack"], Refused::Words),
        (&["--container=queue", "--mix=90/5/5"], Refused::Calls),
        (&["--container=set", "--mix=pairs"], Refused::Calls),
        (&["--container=sorted", "--threads=2"], Refused::Alone),
        (&["--container=list", "--stop=tail"], Refused::Stop),
        (&["--container=cell", "--stop=first"], Refused::Stop),
        (&["--container=cell", "--mix=pairs"], Refused::Calls),
        (&["--threads=16", "--stall"], Refused::Agents),
    ];
    for (words, why) in refused {
        assert!(rt; asked(rt.alloc(), words)? == Err(why), "{words:?}");
    }
    Ok(())
}
