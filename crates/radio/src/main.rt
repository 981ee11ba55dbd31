//! `radio`: a nondestructive multitrack audio editor whose sessions are replicated.
#![tactic(auto)]

use mt_cli::command;
use mt_opcodec::Latch;
use std::fs::File;
use std::io::ErrorKind;
use std::marker::PhantomData;
use std::net::{TcpListener, TcpStream};
use std::process::ExitCode;
use std::{env, io};

fn main(rt: HostRuntime) -> ExitCode {
    // for the proof: the types of a runtime that `command` names
    let _types: PhantomData<(File, TcpListener, TcpStream)> = PhantomData;
    let mut input = Latch::new(rt.stdin());
    let mut output = Latch::new(rt.stdout());
    let mut errors = Latch::new(rt.stderr());
    match words(&rt) {
        Ok(words) => ExitCode::from(command(&rt, &words, &mut input, &mut output, &mut errors)),
        Err(error) if error.kind() == ErrorKind::InvalidData => {
            let _ = errors.put(NOT_UTF8.as_bytes());
            ExitCode::from(2)
        }
        Err(_) => {
            let _ = errors.put(NO_MEMORY.as_bytes());
            ExitCode::from(1)
        }
    }
}

// What the parser's users know of words that are no text.
const NOT_UTF8: &str = "error: invalid UTF-8 was detected in one or more arguments

Usage: radio [OPTIONS] <COMMAND>

For more information, try '--help'.
";

// The failure of an allocation.
const NO_MEMORY: &str = "radio: fault 0\n";

// The words after the program's name. Those that are no text are an error of the kind
// `InvalidData`; every other error is that memory was refused.
fn words(rt: &HostRuntime) -> io::Result<Vec<String>> {
    let mut words = Vec::new(rt.alloc());
    for (place, word) in env::args(rt)?.enumerate() {
        if place > 0 {
            words.push(word)?;
        }
    }
    Ok(words)
}
