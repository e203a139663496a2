//! `nusb_sim`: answers a script of device bytes, host calls and kernel steps.
#![tactic(auto)]

#[cfg(test)]
mod tests;

use std::io::BufWriter;
use std::process::ExitCode;
use std::{env, io};
use usb_session_run::{
    OpenGate, Seen, StdSink, StdSource, end_program, lack_memory, refuse_words, run_program,
};

/// How many bytes of answers are gathered before they are handed to the system, unless a line is longer.
const GATHERED: usize = 65536;

/// The program's words, without its name.
fn read_words(rt: &HostRuntime) -> io::Result<Vec<String>> {
    let mut words = Vec::new(rt.alloc());
    for word in env::args(rt)?.skip(1) {
        if words.push(word).is_err() {
            return Err(io::Error::from(io::ErrorKind::OutOfMemory));
        }
    }
    Ok(words)
}

fn main(rt: HostRuntime) -> ExitCode {
    let mut source = StdSource::new(rt.stdin());
    let mut diag = StdSink::new(rt.stderr());
    let Ok(output) = BufWriter::with_capacity(rt.alloc(), GATHERED, rt.stdout()) else {
        return ExitCode::from(lack_memory(&mut diag));
    };
    let mut sink = StdSink::new(output);
    let words = match read_words(&rt) {
        Ok(words) => words,
        Err(error) if matches!(error.kind(), io::ErrorKind::OutOfMemory) => {
            return ExitCode::from(lack_memory(&mut diag));
        }
        Err(_) => return ExitCode::from(refuse_words(&mut diag)),
    };
    let status = run_program(
        &rt,
        rt.alloc(),
        &words,
        &mut source,
        &mut sink,
        &mut diag,
        OpenGate,
        &Seen::new(),
    );
    ExitCode::from(end_program(status, &mut sink, &mut diag))
}
