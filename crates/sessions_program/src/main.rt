// Reads lines from standard input as they come, and prints what each answers.
#![tactic(auto)]

use sessions::Session;
use std::io;
use std::io::{BufRead, BufReader};

// Each line is handed on with its end, as a piece of the text of which the law `runs_in_pieces` speaks. Not read by `split`, which
// takes the ends off: to put one back can want memory.
fn answer_lines(rt: &HostRuntime) -> io::Result<()> {
    let alloc = rt.alloc();
    let mut session = Session::new();
    let mut input = BufReader::new(alloc, rt.stdin())?;
    for _ in 0..u64::MAX {
        let mut line = Vec::new(alloc);
        if input.read_until(b'\n', &mut line)? == 0 {
            break;
        }
        let mut answer = String::new(alloc);
        session.run(alloc, &line, &mut answer)?;
        rt.print(answer.as_str())?;
    }
    let mut answer = String::new(alloc);
    session.end_rows(alloc, &mut answer)?;
    rt.print(answer.as_str())
}

// An error ends the program with a message, which the runtime prints, and status 1. Want of memory is told as where a line is read.
fn main(rt: HostRuntime) -> anyhow::Result<()> {
    Ok(answer_lines(&rt)?)
}
