// Standard input and standard output of the programs: a read or a write that fails is said on standard error, and never told as a ground;
// its error is the program's. No contract can say what is read from the system and written to it.
// Contracts: `read_full` of any reader, `is_input_lost`.
#![tactic(auto)]

ghost use Rattle.std.specs.Prelude.{◌≡◌, ◌<◌, IfOk, is_err, length, take};
ghost use Rattle.std.specs.Io.{ReadsAtMost};
ghost use Rattle.std.specs.Io.KnownBytes.{Consumes, IsAtEnd};

use std::io;
use std::io::Read;

// Reads until the buffer is full or the input ends, and answers how many bytes were put at the front of the buffer.
pub fn read_full<R: Read>(input: &mut R, buffer: &mut [u8]) -> io::Result<usize>
    ensures in_bounds { ReadsAtMost result buffer.new }
    ensures bytes { IfOk result (λ n. Consumes (R.remaining input.old) (R.remaining input.new) (take n buffer.new)) }
    ensures end { IfOk result (λ n. n < length buffer.new → IsAtEnd (R.remaining input.new)) }
{
    let mut done = 0;
    // No `for`: each turn goes on by as many bytes as the read gives.
    while done < buffer.len() {
        let n = input.read(&mut buffer[done..])?;
        if n == 0 {
            break;
        }
        done += n;
    }
    Ok(done)
}

// Says on standard error what the program, named by any bytes, could not do.
fn complain(rt: HostRuntime, program: &[u8], what: &str) {
    // That this cannot be said either can be told nobody.
    let _ = rt.stderr().write_all(program);
    let _ = eprintln!(rt; ": {what}");
}

// Whether the input could not be read, which is said.
pub fn is_input_lost(rt: HostRuntime, program: &[u8], read: &io::Result<usize>) -> bool
    ensures { result ≡ is_err read.now }
{
    if read.is_ok() {
        return false;
    }
    complain(rt, program, "standard input cannot be read");
    true
}

// Says that the output cannot be written.
pub fn say_output_lost(rt: HostRuntime, program: &[u8]) {
    complain(rt, program, "standard output cannot be written");
}

// Reads the input into the buffer, as `read_full` does it.
pub fn read_input(rt: HostRuntime, program: &[u8], buffer: &mut [u8]) -> io::Result<usize>
    ensures { ReadsAtMost result buffer.new }
{
    let read = read_full(&mut rt.stdin(), buffer);
    is_input_lost(rt, program, &read);
    read
}

// Writes the output.
pub fn write_output(rt: HostRuntime, program: &[u8], bytes: &[u8]) -> io::Result<()> {
    rt.write_all(bytes)
        .inspect_err(|_| say_output_lost(rt, program))
}

#[cfg(test)]
mod tests {
    use super::*;
    use std::io::ErrorKind;

    // Gives its bytes one at a time, and fails where none is left.
    #[derive(Drop)]
    struct Failing<'a> {
        left: &'a [u8],
    }

    impl Read for Failing<'_> {
        fn read(&mut self, buffer: &mut [u8]) -> io::Result<usize> {
            if self.left.is_empty() || buffer.is_empty() {
                return Err(io::Error::from(ErrorKind::Other));
            }
            buffer[0] = self.left[0];
            self.left = &self.left[1..];
            Ok(1)
        }
    }

    #[test]
    fn reads_until_full(rt: HostRuntime) {
        let mut buffer = [0u8; 3];
        let mut input = Failing { left: b"abc" };
        let read = read_full(&mut input, &mut buffer);
        assert!(rt; read.is_ok());
        assert_eq!(rt; buffer, *b"abc");
    }

    #[test]
    fn fails_in_mid_stream(rt: HostRuntime) {
        let mut buffer = [0u8; 4];
        let mut input = Failing { left: b"abc" };
        let read = read_full(&mut input, &mut buffer);
        assert!(rt; read.is_err());
    }
}
