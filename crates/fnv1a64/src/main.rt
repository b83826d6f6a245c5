// Prints the 64-bit FNV-1a hash of each line of standard input, of which it reads 65,536 bytes at most.
#![tactic(auto)]

use input::read_full;
use std::io;

fn print_hash(rt: &impl Print, line: &[u8]) -> io::Result<()> {
    let hash = meta::fnv1a64(line);
    println!(rt; "{hash:016x}")
}

// A line ends at a line feed, or where the text does.
fn print_hashes(rt: &impl Print, text: &[u8]) -> io::Result<()> {
    for line in text.split_inclusive(|byte| *byte == b'\n') {
        print_hash(rt, line.strip_suffix(b"\n").unwrap_or(line))?;
    }
    Ok(())
}

fn main(rt: HostRuntime) -> io::Result<()> {
    let mut buffer = [0u8; 65_536];
    let n = read_full(&mut rt.stdin(), &mut buffer)?;
    print_hashes(&rt, &buffer[..n])
}
