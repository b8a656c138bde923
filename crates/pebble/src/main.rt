// The program: reads Pebble text from standard input, flattens it, and prints the flat text or one line `refused N P`.
#![tactic(auto)]

ghost use Rattle.std.specs.Prelude.{◌+◌, ◌-◌, ◌≤◌, ◌≡◌, IfOk, length, take};
ghost use Rattle.rules.specs.Reasons.{number};
ghost use Rattle.write.specs.Put.{Put};
ghost use Rattle.flatten.specs.Told.{told};
ghost use Rattle.pebble.specs.Decimal.{decimal};
ghost use Rattle.pebble.specs.Printed.{refused_text, Says, Prints};

use rules::Refusal;
use std::io::{Read, Write};

// A number in decimal, with no zero before it; the place after it. Of what `write!` puts into a slice no clause of std says the bytes.
fn put_number(line: &mut [u8], at: usize, n: usize) -> usize
    requires { at + 20 ≤ length line.old }
    ensures put { Put line.old at (decimal n) result line.new }
    ensures upper_bound { result ≤ at + 20 }
{
    let mut digits = [0; 20];
    // `as` loses nothing here, and `u64` has no `From<usize>`.
    let k = io::decimal(n as u64, &mut digits);
    write::copy(line, at, &digits[..k])
}

// The line that says why there is no flat text; its length.
fn put_refusal(refusal: Refusal, line: &mut [u8]) -> usize
    requires { 50 ≤ length line.old }
    ensures put { Put line.old 0 (refused_text (number refusal.reason) refusal.place) result line.new }
    ensures upper_bound { result ≤ 50 }
{
    let a = write::copy(line, 0, b"refused ");
    let b = put_number(line, a, refusal.reason.number());
    let c = write::copy(line, b, b" ");
    let d = put_number(line, c, refusal.place);
    write::copy(line, d, b"\n")
}

// What is printed for an answer of flattening and the netlist that it left: put at the front of `out`; its length.
fn show(answer: Result<usize, Refusal>, net: &[u16], out: &mut [u8; 65536]) -> usize
    ensures { Says (told answer).number (told answer).place net.now result out.new }
{
    match answer {
        Err(refusal) => put_refusal(refusal, out),
        Ok(_) => match write::write(net, out) {
            Ok(length) => length,
            Err(reason) => put_refusal(Refusal { reason, place: 0 }, out),
        },
    }
}

// What is printed for a text: put at the front of `out`; its length.
fn print(text: &[u8], out: &mut [u8; 65536]) -> usize
    ensures { Prints text.now result out.new }
{
    let mut work = [0; 16384];
    let mut net = [0; 5124];
    let answer = flatten::flatten(text, &mut work, &mut net);
    show(answer, &net, out)
}

// One read, behind the bytes that have come before: so many more came, none at the input's end.
fn read_on(rt: HostRuntime, text: &mut [u8], have: usize) -> std::io::Result<usize>
    requires { have ≤ length text.old }
    ensures within { IfOk result (λ more. more ≤ length text.old - have) }
    ensures text_unchanged { take have text.new ≡ take have text.old }
{
    let rest = &mut text[have..];
    rt.stdin().read(rest)
}

// Reads until the input ends or the buffer is full, however small the pieces are that come. `read_to_end` wants a Vec, and this project has no heap.
fn read_all(rt: HostRuntime, text: &mut [u8]) -> std::io::Result<usize>
    ensures { IfOk result (λ n. n ≤ length text.new) }
{
    let mut have = 0;
    while have < text.len() {
        let more = read_on(rt, text, have)?;
        if more == 0 {
            break;
        }
        have += more;
    }
    Ok(have)
}

fn complain(rt: HostRuntime, line: &[u8]) {
    let _ = rt.stderr().write_all(line);
}

// Prints the answer to a text.
fn answer(rt: HostRuntime, text: &[u8]) {
    let mut out = [0; 65536];
    let n = print(text, &mut out);
    if rt.stdout().write_all(&out[..n]).is_err() {
        complain(rt, b"pebble: standard output cannot be written\n");
    }
}

// One byte more than the longest text is read: that it came tells that a text is too long.
fn main(rt: HostRuntime) {
    let mut space = [0; 16385];
    match read_all(rt, &mut space) {
        Ok(n) => answer(rt, &space[..n]),
        Err(_) => complain(rt, b"pebble: standard input cannot be read\n"),
    }
}
