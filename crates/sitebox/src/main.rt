// Reads a stream of calls from standard input, makes them on a new box, and prints a line for each answer.
#![tactic(auto)]

ghost use Rattle.std.specs.Prelude.{◌≤◌, length, IfOk};

use decoder::decode;
use lattice::Chain;
use session::run;
use std::io;
use std::io::{ErrorKind, Read};
use store::{DenseStore, Store};
use stream::{Answer, Call, Transcript};

// The most bytes of input that are read.
const INPUT_BYTES: usize = 65536;

// Fills the buffer from the front, as far as there is input.
// Each read has all the room that is left: `read_to_end` asks for 512 bytes first, and of a longer message, as a packet socket
// brings it, the rest would be lost.
fn read_input(input: &mut impl Read, buffer: &mut [u8]) -> io::Result<usize>
    ensures { IfOk result (λ n. n ≤ length buffer.old) }
{
    let mut size = 0;
    for _ in 0..u64::MAX {
        match input.read(&mut buffer[size..]) {
            Ok(0) => break,
            Ok(more) => size += more,
            Err(error) if error.kind() == ErrorKind::Interrupted => {}
            Err(error) => return Err(error),
        }
    }
    Ok(size)
}

fn main(rt: HostRuntime) -> io::Result<()> {
    let mut buffer = vec![in rt.alloc(); 0; INPUT_BYTES]?;
    let size = read_input(&mut rt.stdin(), &mut buffer)?;
    let stream = decode::<Call>(rt.alloc(), &buffer[..size])?;
    let mut answers = vec![in rt.alloc(); Answer::Number(0); stream.items.len()]?;
    run::<Chain, DenseStore>(Chain { top: 3 }, &stream.items, &mut answers);
    let transcript = Transcript {
        answers: &answers,
        ended: stream.ended(),
    };
    for line in transcript.lines() {
        rt.println(line)?;
    }
    Ok(())
}
