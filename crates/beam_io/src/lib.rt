// What it is: what programs `beamat` and `heldat` do with one input, shared with the program that runs further cases.
// What it promises: it is safe and ends, is asked of a reader only (a failed open gives none), and `beam::report` always has room; no contract can say which bytes are read or written.
// Where its definitions stand: in beam, specs/Whole.antt (`report_of`).
#![tactic(auto)]

ghost use Rattle.std.specs.Prelude.{◌≤◌, length, IfOk};

use beam::{NoRoom, Question};
use std::io;
use std::io::Read;

// Reads at most 65,537 bytes, one more than are allowed, and writes their report. A read or a write that fails is answered.
// That there is always room is what `unreachable` asks the proof to show.
pub fn answer(rt: &impl Print, input: &mut impl Read, question: Question) -> io::Result<()> {
    let mut bytes = [0u8; 65537];
    let mut out = [0u8; 524299];
    let n = read_full(input, &mut bytes)?;
    match beam::report(question, &bytes[..n], &mut out) {
        Ok(k) => rt.write_all(&out[..k]),
        Err(NoRoom) => unreachable!(),
    }
}

// Reads until buf is full or the input ends, and answers how many bytes it put at the start of buf.
// Kept: std's `read_exact` does not say how many bytes came where the input ends, and its `read_to_end` takes heap.
fn read_full(input: &mut impl Read, buf: &mut [u8]) -> io::Result<usize>
    ensures { IfOk result (λ n. n ≤ length buf.new) }
{
    let mut done = 0;
    while done < buf.len() {
        let n = input.read(&mut buf[done..])?;
        if n == 0 {
            break;
        }
        done += n;
    }
    Ok(done)
}
