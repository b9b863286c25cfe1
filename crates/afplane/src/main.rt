//! The program `afplane`, under the configuration in a file: one connection, from standard input to standard output (`once`), or a server of
//! many on 127.0.0.1 (`serve`). Or it says whether the answers of a trace are those of the run of its steps (`verify`).
#![tactic(auto)]

use af_http::Counted;
use af_server::{Command, Console, Reason, ended, run};
use std::env;
use std::process::ExitCode;

fn main(rt: HostRuntime) -> ExitCode {
    let mut console = Console {
        input: Counted::new(rt.stdin()),
        output: Counted::new(rt.stdout()),
        errors: Counted::new(rt.stderr()),
    };
    let status = match env::args(&rt) {
        Ok(words) => run(&rt, rt.alloc(), &rt, Command::of_words(words), &mut console).status,
        Err(_) => ended(&mut console.errors, Err(Reason::Memory)),
    };
    ExitCode::from(status)
}
