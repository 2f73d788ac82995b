// The program `admit`: a plan on standard input, the verdict on standard output. `main` reads, calls
// `report::answer` and writes; without a whole input there is no verdict, and a line on standard error says so.
// Its own status is 0 either way: the exit status is that of the command `./admit`.
#![tactic(auto)]

use report::INPUT_BYTES;
use std::io::{self, Read, Write};
use text::TEXT_BYTES;

// Bytes after the longest plan that are read and forgotten, so that whoever writes them is not cut off.
const MOST_FORGOTTEN: usize = 1073741824;

// Reads to the end of the input, and keeps as many bytes of it as there is room for. No signal interrupts a
// read, since the program handles none, so that each read that fails is a failure.
fn read_input(input: &mut impl Read, kept: &mut [u8]) -> io::Result<usize> {
    let mut done = 0;
    while done < kept.len() {
        let more = input.read(&mut kept[done..])?;
        if more == 0 {
            return Ok(done);
        }
        done += more;
    }
    read_on(input)?;
    Ok(done)
}

// Reads on to the end. An input that does not end is left, since a program is proved to end.
fn read_on(input: &mut impl Read) -> io::Result<()> {
    let mut rest = [0u8; 65536];
    let mut forgotten = 0;
    while forgotten < MOST_FORGOTTEN {
        let more = input.read(&mut rest)?;
        if more == 0 {
            return Ok(());
        }
        forgotten += more;
    }
    Ok(())
}

fn main(rt: HostRuntime) {
    let mut input = [0u8; INPUT_BYTES];
    let Ok(read) = read_input(&mut rt.stdin(), &mut input) else {
        let _ = eprintln!(rt; "admit: the input could not be read");
        return;
    };
    let mut text = [0u8; TEXT_BYTES];
    let length = report::answer(&input, read, &mut text);
    if rt.stdout().write_all(&text[..length]).is_err() {
        let _ = eprintln!(rt; "admit: the verdict could not be written");
    }
}

#[cfg(test)]
mod tests {
    use super::*;

    // Gives one byte a read, and then ends or fails.
    #[derive(Drop)]
    struct Slow {
        left: usize,
        fails: bool,
    }

    impl Read for Slow {
        fn read(&mut self, buf: &mut [u8]) -> io::Result<usize> {
            if self.left == 0 {
                if self.fails {
                    return Err(io::Error::from(io::ErrorKind::Other));
                }
                return Ok(0);
            }
            if buf.is_empty() {
                return Ok(0);
            }
            buf[0] = 7;
            self.left -= 1;
            Ok(1)
        }
    }

    fn read_slowly(left: usize, fails: bool, kept: &mut [u8]) -> io::Result<usize> {
        read_input(&mut Slow { left, fails }, kept)
    }

    #[test]
    fn short_reads_are_joined(rt: HostRuntime) {
        let mut kept = [0u8; 4];
        assert!(rt; matches!(read_slowly(3, false, &mut kept), Ok(3)));
        assert!(rt; kept == [7, 7, 7, 0]);
    }

    #[test]
    fn more_than_is_kept_is_read_and_forgotten(rt: HostRuntime) {
        let mut kept = [0u8; 4];
        assert!(rt; matches!(read_slowly(9, false, &mut kept), Ok(4)));
    }

    #[test]
    fn a_failure_is_no_end(rt: HostRuntime) {
        let mut kept = [0u8; 4];
        assert!(rt; matches!(read_slowly(3, true, &mut kept), Err(_)));
        assert!(rt; matches!(read_slowly(9, true, &mut kept), Err(_)));
    }
}
