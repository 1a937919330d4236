//! Plays whose answers were reckoned by hand, and random plays on which another program of the same rules agrees: standard input is a
//! transcript, and standard output the same with the answers of now. `stdin` and `stdout` beside src/ are the same text.
#![tactic(auto)]

use play_base::NoMemory;
use std::io::{self, ErrorKind};
use transcript::answered;

fn main(rt: HostRuntime) -> io::Result<()> {
    let alloc = rt.alloc();
    let text = io::read_to_string(alloc, rt.reader())?;
    match answered(alloc, text.as_str()) {
        Ok(answered) => print!(rt; "{answered}"),
        Err(NoMemory) => Err(io::Error::from(ErrorKind::OutOfMemory)),
    }
}
