// The desk program: reads a system file from standard input and writes what is found to standard output. What could not be read or written it says on
// standard error; of a file that was not read to its end it answers nothing. It ends with a status other than 0 only where not even that can be said.
#![tactic(auto)]

mod moving;
#[cfg(test)]
mod tests;

use moving::Short;
use runs::runs::Stop;
use std::io;
use system::refusal::Refused;

fn print(rt: &HostRuntime, a: Result<Stop, Refused>, list: &[u16; 7168]) -> io::Result<()> {
    let mut text = [0u8; 43101];
    let n = desk::tell(a, list, &mut text);
    moving::write(&mut rt.stdout(), &text[..n]).or_else(|why| eprintln!(rt;
        "solve: not all of the answer could be written: {why}"
    ))
}

fn solve(rt: &HostRuntime, file: &[u8]) -> io::Result<()> {
    let mut list = [0u16; 7168];
    let a = desk::search(file, &mut list);
    print(rt, a, &list)
}

fn main(rt: HostRuntime) -> io::Result<()> {
    let mut file = [0u8; 4096];
    match moving::read(&mut rt.stdin(), &mut file) {
        Ok(count) => solve(&rt, &file[..count]),
        Err(Short { why, .. }) => eprintln!(rt; "solve: not all of the input could be read: {why}"),
    }
}
