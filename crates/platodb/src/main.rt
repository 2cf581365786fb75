//! The program: it makes the files of the current folder, standard output and the words, calls `run`, and ends with the
//! number of its status. Where the system does not hand out the words, it ends with 1 for want of memory, else with
//! 100.
#![tactic(auto)]

ghost use Rattle.std.specs.Prelude.{◌≡◌};
ghost use Rattle.std.specs.Process.{exit_status};
ghost use Rattle.query_cli.specs.Statuses.{number_of_status};

use outside::{DirShelf, StdOut};
use query_cli::{Status, run};
use std::env;
use std::io::{self, ErrorKind};
use std::process::ExitCode;

#[cfg(test)]
mod cert_tests;
#[cfg(test)]
mod gen_tests;
#[cfg(test)]
mod hostile_tests;
#[cfg(test)]
mod query_tests;
#[cfg(test)]
mod session_tests;
#[cfg(test)]
mod store_tests;
#[cfg(test)]
mod tests;

const NO_MEMORY: u8 = 1;

const NO_WORDS: u8 = 100;

// All words, the program's name first.
fn all_words(rt: &HostRuntime) -> io::Result<Vec<String>> {
    let mut words = Vec::new(rt.alloc());
    for word in env::args(rt)? {
        words.push(word)?;
    }
    Ok(words)
}

// The program ends with the number of the status.
fn ended(status: Status) -> ExitCode
    ensures { exit_status result ≡ number_of_status status }
{
    ExitCode::from(status.number())
}

fn main(rt: HostRuntime) -> ExitCode {
    let words = match all_words(&rt) {
        Ok(words) => words,
        Err(e) if e.kind() == ErrorKind::OutOfMemory => return ExitCode::from(NO_MEMORY),
        Err(_) => return ExitCode::from(NO_WORDS),
    };
    let after_name = words.get(1..).unwrap_or(&[]);
    let mut shelf = DirShelf::new(rt.alloc(), &rt);
    let mut out = StdOut::new(&rt);
    let status = run(rt.alloc(), after_name, &mut shelf, &mut out);
    ended(status)
}
