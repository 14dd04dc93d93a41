// The desk: one request a line on standard input, one answer a line on standard output.
#![tactic(auto)]

mod answers;
mod faults;
mod lines;
mod price;
mod weigh;

use answers::answer;
use lines::Line;
use std::io;
use std::io::BufReader;

fn reply(rt: &HostRuntime, line: &[u8]) -> io::Result<()> {
    match answer(rt.alloc(), line) {
        Ok(Some(text)) => println!(rt; "{text}"),
        Ok(None) => Ok(()),
        Err(fault) => println!(rt; "error: {fault}"),
    }
}

fn main(rt: HostRuntime) -> io::Result<()> {
    let mut input = BufReader::new(rt.alloc(), rt.stdin())?;
    let mut line = Line::new(rt.alloc())?;
    // A counted loop: a `while let` has no measure here, since nothing says that the input ends.
    for _ in 0..u64::MAX {
        match line.read(&mut input)? {
            Some(Ok(())) => reply(&rt, line.as_slice())?,
            Some(Err(too_long)) => println!(rt; "error: {too_long}")?,
            None => break,
        }
    }
    Ok(())
}
