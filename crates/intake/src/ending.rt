//! How a run ends.
use std::fmt::Display;
use std::process::ExitCode;

/// The status with which a program ends after a run; what went wrong is said on standard error, behind the program's name.
pub fn end<E: Display + Drop>(rt: &impl Eprint, name: &str, run: Result<(), E>) -> ExitCode {
    match run {
        Ok(()) => ExitCode::SUCCESS,
        Err(fault) => {
            // Where standard error cannot be written, the status is all that is left to say.
            let _ = eprintln!(rt; "{name}: {fault}");
            ExitCode::FAILURE
        }
    }
}
