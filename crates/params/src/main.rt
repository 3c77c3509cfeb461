//! Compares the values that two systems hold for the parameters of one drive. Reads the file that its first argument names,
//! or standard input, and prints what is found of each line, and a summary.
#![tactic(auto)]

use std::alloc::AllocError;
use std::io::{Read, Write};
use std::process::ExitCode;
use std::{env, fmt, fs, io};

// Why there is no report: the error, and the file that was named, where it is that file that could not be read.
#[derive(Drop)]
struct Failure {
    error: io::Error,
    path: Option<String>,
}

impl From<io::Error> for Failure {
    fn from(error: io::Error) -> Failure {
        Failure { error, path: None }
    }
}

impl From<AllocError> for Failure {
    fn from(error: AllocError) -> Failure {
        Failure::from(io::Error::from(error))
    }
}

impl fmt::Display for Failure {
    fn fmt<W: fmt::Write>(&self, f: &mut fmt::Formatter<W>) -> fmt::Result {
        match &self.path {
            Some(path) => write!(f, "{}: {path}", self.error),
            None => write!(f, "{}", self.error),
        }
    }
}

fn main(rt: HostRuntime) -> ExitCode {
    match run(&rt) {
        Ok(()) => ExitCode::SUCCESS,
        Err(e) => {
            // Where standard error cannot be written either, the status alone tells.
            let _ = eprintln!(rt; "params: {e}");
            ExitCode::FAILURE
        }
    }
}

fn run(rt: &HostRuntime) -> Result<(), Failure> {
    let file = read_file(rt)?;
    let text = parameters::report(rt.alloc(), file.as_slice())?;
    rt.stdout().write_all(text.as_slice())?;
    Ok(())
}

// The file that is named, or else standard input, as bytes.
fn read_file(rt: &HostRuntime) -> Result<Vec<u8>, Failure> {
    if let Some(path) = env::args(rt)?.nth(1) {
        return fs::read(rt, path.as_str()).map_err(|error| Failure {
            error,
            path: Some(path),
        });
    }
    let mut file = Vec::new(rt.alloc());
    rt.stdin().read_to_end(&mut file)?;
    Ok(file)
}
