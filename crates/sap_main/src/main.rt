//! The program `sapic`: the words of its command line, the files of the system and its standard streams.
#![tactic(auto)]

use sap_tool::{FileShelf, StreamSink, sapic};
use std::alloc::AllocError;
use std::process::ExitCode;
use std::rt::Env;
use std::{env, io};

// The words after the program's name; none where one of them isn't UTF-8.
fn words<R: Env + AllocGlobal>(rt: &R) -> Result<Vec<String>, AllocError> {
    let mut words = Vec::new(rt.alloc());
    let args = match env::args(rt) {
        Ok(args) => args,
        Err(e) => {
            if e.kind() == io::ErrorKind::OutOfMemory {
                return Err(AllocError);
            }
            return Ok(words);
        }
    };
    for word in args.skip(1) {
        words.push(word)?;
    }
    Ok(words)
}

fn main(rt: HostRuntime) -> ExitCode {
    let Ok(words) = words(&rt) else {
        return ExitCode::from(6);
    };
    let mut shelf = FileShelf {
        rt: &rt,
        count: 0,
        file: None,
        name: None,
    };
    let mut out = StreamSink {
        to: rt.stdout(),
        count: 0,
    };
    let mut err = StreamSink {
        to: rt.stderr(),
        count: 0,
    };
    ExitCode::from(sapic(rt.alloc(), &words, &mut shelf, &mut out, &mut err))
}
