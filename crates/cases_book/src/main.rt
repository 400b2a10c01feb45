// The book runner on stored input: each file that an argument names is a session of its own, from an empty
// book. Arguments, files and what is to be written are made by tests/cases/book.py.
#![tactic(auto)]

use std::fs::File;
use std::{env, io};

fn main(rt: HostRuntime) -> io::Result<()> {
    for path in env::args(&rt)?.skip(1) {
        run_file(&rt, path.as_str());
    }
    Ok(())
}

// The session in the file of this path.
fn run_file(rt: &HostRuntime, path: &str) {
    match File::open(rt, path) {
        Ok(file) => {
            let mut reader = file;
            let mut writer = rt.stdout();
            program::run(rt, &mut reader, &mut writer);
        }
        Err(why) => {
            let _ = eprintln!(rt; "{path}: {why}");
        }
    }
}
