//! Reads a module from standard input and does what its words say: `wassail rewrite < module.wasm`.
#![tactic(auto)]

use outside_io::{StdSink, StdSource};
use std::process::ExitCode;
use std::{env, io};
use wassail_top::{Status, wassail};

fn main(rt: HostRuntime) -> ExitCode {
    let Ok(words) = words_after_name(&rt) else {
        return ExitCode::from(Status::NoMemory.code());
    };
    let mut source = StdSource::new(rt.stdin());
    let mut out = StdSink::new(rt.stdout());
    let mut err = StdSink::new(rt.stderr());
    ExitCode::from(wassail(rt.alloc(), &words, &mut source, &mut out, &mut err))
}

// The words after the program's name, or none where one of them isn't text. It fails only where an allocation is refused.
fn words_after_name(rt: &HostRuntime) -> io::Result<Vec<String>> {
    let mut words = Vec::new(rt.alloc());
    match env::args(rt) {
        Ok(args) => {
            for word in args.skip(1) {
                words.push(word)?;
            }
            Ok(words)
        }
        Err(error) if error.kind() == io::ErrorKind::OutOfMemory => Err(error),
        Err(_) => Ok(words),
    }
}
