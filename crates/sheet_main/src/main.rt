// The sheet program: standard input in, the warning to standard error, the response to standard output.
// The first 65,536 bytes decide, since every sheet is shorter.
// The status goes to descriptor 3, one digit, and ./sheet ends with it: an exit status of 1 could also come from a loader that cannot run the program (tests/sheet, "programs that write no status").
#![tactic(auto)]

ghost use Rattle.std.specs.Prelude.{◌≡◌, cond, IfOk};
ghost use Rattle.answer.specs.Answer.{is_done};
ghost use Rattle.io.specs.Counts.{IsPrefixLen};
ghost use Rattle.sheet_main.specs.Status.{Status};

use answer::Answer;
use std::fs;
use std::fs::{OpenFile, OpenOptions};
use std::io::{Read, Result};

const STATUS_FILENO: i32 = 3;

// Reads until the buffer is full or the input ends, and answers how many bytes were read.
fn read_input(rt: &HostRuntime, buf: &mut [u8]) -> Result<usize>
    ensures { IfOk result (λ length. IsPrefixLen length buf.new) }
{
    let mut stdin = rt.stdin();
    let mut length = 0;
    // A `while`: each read says how far it came.
    while length < buf.len() {
        let more = stdin.read(&mut buf[length..])?;
        if more == 0 {
            break;
        }
        length += more;
    }
    Ok(length)
}

// Waits for the disk, where a file that was written to can be opened again: a full disk may first show here.
fn sync(rt: &HostRuntime, path: &str) -> Result<()> {
    match OpenOptions::new().write(true).open(rt, path) {
        Ok(file) => file.sync_all(),
        Err(_) => Ok(()),
    }
}

// Writes the response, and waits for the disk where standard output is a file.
fn write_out(rt: &HostRuntime, response: &[u8]) -> Result<()> {
    rt.stdout().write_all(response)?;
    match fs::metadata(rt, "/dev/stdout") {
        Ok(found) if found.is_file() => sync(rt, "/dev/stdout"),
        _ => Ok(()),
    }
}

// The digit of the status: 0 for a page, 1 for a refused sheet, 2 where the warning or the response was not written.
fn status(answer: Answer, written: bool) -> u8
    ensures { result ≡ cond written (cond (is_done answer) 48 49) 50 }
{
    if !written {
        return b'2';
    }
    if answer.is_ok() { b'0' } else { b'1' }
}

// Writes the warning and the response of s, and answers the digit of the status.
fn answer_to(rt: &HostRuntime, s: &[u8]) -> u8
    ensures { Status s.now result }
{
    let mut output = io::large_buffer();
    let end = sheet::warn(s, &mut output);
    let warned = rt.stderr().write_all(&output[..end]).is_ok();
    let responded = sheet::respond(s, &mut output);
    let written = write_out(rt, &output[..responded.end]).is_ok();
    if !written {
        let _ = rt
            .stderr()
            .write_all(b"sheet: the output cannot be written\n");
    }
    let answer = responded.answer;
    status(answer, warned && written)
}

fn main(rt: HostRuntime) {
    let mut buffer = io::large_buffer();
    let digit = match read_input(&rt, &mut buffer) {
        Ok(length) => answer_to(&rt, &buffer[..length]),
        Err(_) => {
            let _ = rt.stderr().write_all(b"sheet: the input cannot be read\n");
            b'2'
        }
    };
    io::write_all(STATUS_FILENO, &[digit]);
}
