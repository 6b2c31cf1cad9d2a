// The panel's program: reads a script from standard input, and prints the answer to each call.
#![tactic(auto)]

use dialogue::answer;
use std::io;
use std::io::{BufReader, BufWriter, Read, Write};

fn main(rt: HostRuntime) -> io::Result<()> {
    let heap = rt.alloc();
    let mut script = Vec::new(heap);
    BufReader::new(heap, rt.stdin())?.read_to_end(&mut script)?;
    let told = answer(heap, script.as_slice())?;
    let mut output = BufWriter::new(heap, rt.stdout())?;
    output.write_all(told.as_bytes())?;
    output.flush()
}
