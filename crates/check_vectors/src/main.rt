// Runs the vectors of standard input, one to a line, and prints each line with what it gives.
//
// What is expected stands in `stdout`. It was worked out by hand, the dates by Python's datetime: the seconds of
// datetime(year, month, day, hour, minute, second) - datetime(1900, 1, 1), less 60 for each minute that local time is ahead of GMT.
#![tactic(auto)]

ghost use Rattle.std.specs.Prelude.{◌≡◌, ◌≤◌, length, IfOk};

use std::io;
use std::io::{Read, Write};

// The most lines that are read.
const LINES: usize = 65536;

// Room for a line, for the store, or for what a line gives.
fn room() -> [u8; 65536]
    ensures { 65536 ≡ length result }
{
    [0; 65536]
}

// The next byte of the input, or none at its end.
fn read_byte<R: Read>(input: &mut R) -> io::Result<Option<u8>> {
    let mut byte = [0u8; 1];
    if input.read(&mut byte)? == 1 {
        return Ok(Some(byte[0]));
    }
    Ok(None)
}

// A line with its LF, as far as there is room: how many bytes, and none at the end of the input.
fn read_line<R: Read>(input: &mut R, line: &mut [u8]) -> io::Result<usize>
    ensures { IfOk result (λ n. n ≤ length line.new) }
{
    let mut n: usize = 0;
    while n < line.len() {
        let Some(b) = read_byte(input)? else {
            return Ok(0);
        };
        line[n] = b;
        n += 1;
        if b == b'\n' {
            return Ok(n);
        }
    }
    Ok(n)
}

// Print the first bytes of a text.
fn print<W: Write>(text: &[u8], many: usize, output: &mut W) -> io::Result<()> {
    if many <= text.len() {
        return output.write_all(&text[..many]);
    }
    Ok(())
}

// Run a line with a store of which so many bytes are used: how many are used afterwards.
fn run<W: Write>(
    line: &[u8],
    store: &mut [u8],
    used: usize,
    text: &mut [u8],
    output: &mut W,
) -> io::Result<usize> {
    if store.len() < used {
        return Ok(used);
    }
    let many = vectors::write_answer(line, &store[..used], text);
    print(text, many, output)?;
    Ok(vectors::keep_lists(line, store, used))
}

// Each line of the input.
fn run_lines<R: Read, W: Write>(
    line: &mut [u8],
    store: &mut [u8],
    text: &mut [u8],
    input: &mut R,
    output: &mut W,
) -> io::Result<()> {
    let mut used: usize = 0;
    for _ in 0..LINES {
        let n = read_line(input, line)?;
        if n == 0 {
            return Ok(());
        }
        let end = n - 1;
        used = run(&line[..end], store, used, text, output)?;
    }
    Ok(())
}

fn main(rt: HostRuntime) -> io::Result<()> {
    let mut line = room();
    let mut store = room();
    let mut text = room();
    run_lines(
        &mut line,
        &mut store,
        &mut text,
        &mut rt.stdin(),
        &mut rt.stdout(),
    )
}
