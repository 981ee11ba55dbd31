//! What stops the program.

ghost use Rattle.std.specs.Prelude.{IfErr};
ghost use Rattle.mt_cli.specs.Mistakes.{IsMistake};

use clap::error::ErrorKind;
use cli_calls::CliFault;
use std::alloc::Global;

/// What stops the program.
#[derive(Debug, Drop)]
pub(crate) enum Stop {
    /// A command was refused; beside it what is known of the cause, where that was asked for and there was memory to tell it.
    Refused {
        fault: CliFault,
        why: Option<String>,
    },
    /// The command line asks for a text, as help, or does not parse.
    Told {
        text: String,
        is_mistake: bool,
    },
}

/// What a command comes to, as the program is stopped by it.
pub(crate) fn stopped_by(done: Result<(), CliFault>) -> Result<(), Stop>
    ensures no_mistake { IfErr result (λ stop. IsMistake stop → ⊥) }
{
    match done {
        Ok(()) => Ok(()),
        Err(fault) => Err(refused(fault)),
    }
}

// A refusal, of which no more is known.
pub(crate) fn refused(fault: CliFault) -> Stop
    ensures { IsMistake result → ⊥ }
{
    Stop::Refused { fault, why: None }
}

impl Stop {
    /// What the parser tells in place of a match.
    pub(crate) fn told(alloc: Global, error: clap::Error) -> Stop {
        if error.kind() == ErrorKind::OutOfMemory {
            return refused(CliFault::Memory);
        }
        match error.to_string(alloc) {
            Ok(text) => Stop::Told {
                text,
                is_mistake: error.use_stderr(),
            },
            Err(_) => refused(CliFault::Memory),
        }
    }
}
