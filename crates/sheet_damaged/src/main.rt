// Runs the sheet program's functions on each file that an argument names, and prints the name, the response and the warning.
#![tactic(auto)]

use std::env;
use std::fs::File;
use std::os::fd::{AsRawFd, RawFd};

const STDOUT_FILENO: i32 = 1;

fn respond_to(fd: RawFd) {
    let mut input = io::large_buffer();
    let length = io::read_full(fd, &mut input);
    let mut output = io::large_buffer();
    let responded = sheet::respond(&input[..length], &mut output);
    let end = responded.end;
    io::write_all(STDOUT_FILENO, &output[..end]);
    let end = sheet::warn(&input[..length], &mut output);
    io::write_all(STDOUT_FILENO, &output[..end]);
}

fn show(rt: &HostRuntime, name: &str) {
    io::write_all(STDOUT_FILENO, name.as_bytes());
    io::write_all(STDOUT_FILENO, b"\t");
    match File::open(rt, name) {
        Ok(file) => respond_to(file.as_raw_fd()),
        Err(error) => {
            let _ = eprintln!(rt; "{name}: {error}");
        }
    }
}

fn main(rt: HostRuntime) -> std::io::Result<()> {
    for name in env::args(&rt)?.skip(1) {
        show(&rt, name.as_str());
    }
    Ok(())
}
