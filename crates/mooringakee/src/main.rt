//! Works through a job file and writes the report, or does what another mode of the words asks: from standard input to
//! standard output.
#![tactic(auto)]

use orc_board::OpenGate;
use orc_program::{CommandWords, Ended, StdSink, StdSource, orc_main, refuse_words};
use std::env;
use std::io::ErrorKind;
use std::process::ExitCode;

/// The status where memory for the words is refused.
const NO_MEMORY: u8 = 7;

fn main(rt: HostRuntime) -> ExitCode {
    let mut sink = StdSink::new(rt.stdout());
    let args = match env::args(&rt) {
        Ok(args) => args,
        Err(e) if e.kind() == ErrorKind::OutOfMemory => return ExitCode::from(NO_MEMORY),
        // A word that isn't UTF-8 asks for nothing that there is.
        Err(_) => return ExitCode::from(refuse_words(&mut sink)),
    };
    let mut words = CommandWords::new(rt.alloc());
    for word in args.skip(1) {
        if words.push(word.as_str()).is_err() {
            return ExitCode::from(NO_MEMORY);
        }
    }
    let mut source = StdSource::new(rt.stdin());
    let mut ended = Ended::Nothing;
    let status = orc_main(
        &rt,
        rt.alloc(),
        &words,
        &mut source,
        &mut sink,
        &OpenGate,
        &mut ended,
    );
    ended.let_go();
    ExitCode::from(status)
}
