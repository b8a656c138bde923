// Every public function on any input, in memory of any length, for tools outside: commands from standard input, answers to standard output.
#![tactic(auto)]

mod input;
mod output;

ghost use Rattle.std.specs.Prelude.{ℕ, ◌≤◌, ◌≡◌, length};
ghost use Rattle.netlist.specs.Answers.{told, its_length};
ghost use Rattle.flatten.specs.Told.{told as flatten_told};

use input::Input;
use output::Output;
use rules::{Reason, Refusal};

// The largest numbers of a command.
const WORK: usize = 20000;

const NET: usize = 8000;

const TEXT: usize = 70000;

const VALUES: usize = 4000;

// What lent memory holds before a call.
const OLD_BYTE: u8 = 165;

const OLD_WORD: u16 = 42405;

const OLD_LONG: u32 = 3735928559;

// The number that an answer tells: 0 where the job is done.
#[tactic(auto, unfolding(netlist::specs::Answers::told))]
fn number<T: Copy>(answer: Result<T, Reason>) -> usize
    ensures { (length : T → ℕ) → result ≡ (told length answer).number }
{
    match answer {
        Ok(_) => 0,
        Err(reason) => reason.number(),
    }
}

// The length that an answer of writing tells: 0 where there is no text.
#[tactic(auto, unfolding(netlist::specs::Answers::told))]
fn length_of(answer: Result<usize, Reason>) -> usize
    ensures { result ≡ (told its_length answer).length }
{
    answer.unwrap_or(0)
}

// What an answer of flattening tells.
#[derive(Clone, Copy)]
struct Shown {
    number: usize,
    place: usize,
    steps: usize,
}

fn tell(answer: Result<usize, Refusal>) -> Shown
    ensures { (result.number ≡ (flatten_told answer).number) × (result.place ≡ (flatten_told answer).place) × (result.steps ≡ (flatten_told answer).steps) }
{
    match answer {
        Ok(steps) => Shown {
            number: 0,
            place: 0,
            steps,
        },
        Err(refusal) => Shown {
            number: refusal.reason.number(),
            place: refusal.place,
            steps: 0,
        },
    }
}

// How many are not zero.
fn left<T: Copy + Into<u32>>(cells: &[T]) -> usize {
    cells.iter().filter(|cell| (**cell).into() != 0).count()
}

fn show_flatten(output: &mut Output, answer: Result<usize, Refusal>, work: &[u32], net: &[u16]) {
    let shown = tell(answer);
    output.bytes(b"flatten");
    output.number(shown.number);
    output.number(shown.place);
    output.number(shown.steps);
    output.number(left(work));
    output.line(b"\nwords", net);
}

fn show_run(output: &mut Output, answer: Result<(), Reason>, values: &[u8]) {
    output.bytes(b"run");
    output.number(number(answer));
    output.line(b"\nvalues", values);
}

#[tactic(auto, unfolding(netlist::specs::Answers::told))]
fn show_write(output: &mut Output, answer: Result<usize, Reason>, text: &[u8])
    requires { (told its_length answer).length ≤ length text.now }
{
    let length = length_of(answer);
    let (written, rest) = text.split_at(length);
    output.bytes(b"write");
    output.number(number(answer));
    output.number(length);
    output.number(left(rest));
    output.bytes(b"\ntext\n");
    output.bytes(written);
}

fn show_read(output: &mut Output, answer: Result<(), Reason>, net: &[u16]) {
    output.bytes(b"read");
    output.number(number(answer));
    output.line(b"\nwords", net);
}

// Each command takes its numbers and what they announce from the input, lends its job so much memory, and shows the answer. None where the
// command is bad or the input too short.

// `WORK NET LEN`, and a text.
fn flatten_command(input: &mut Input, output: &mut Output) -> Option<()> {
    let work = input.number(b' ', WORK)?;
    let net = input.number(b' ', NET)?;
    let len = input.number(b'\n', TEXT)?;
    let mut text = [OLD_BYTE; TEXT];
    let mut table = [OLD_LONG; WORK];
    let mut words = [OLD_WORD; NET];
    let (text, work, net) = (&mut text[..len], &mut table[..work], &mut words[..net]);
    input.fill(text)?;
    let answer = flatten::flatten(text, work, net);
    show_flatten(output, answer, work, net);
    Some(())
}

// `VALUES WORDS INPUTS`, a netlist's words, and inputs.
fn run_command(input: &mut Input, output: &mut Output) -> Option<()> {
    let wires = input.number(b' ', VALUES)?;
    let net = input.number(b' ', NET)?;
    let bits = input.number(b'\n', VALUES)?;
    let mut words = [OLD_WORD; NET];
    let mut inputs = [OLD_BYTE; VALUES];
    let mut values = [OLD_BYTE; VALUES];
    let (net, bits, wires) = (&mut words[..net], &mut inputs[..bits], &mut values[..wires]);
    input.fill(net)?;
    input.fill(bits)?;
    let answer = run::run(net, bits, wires);
    show_run(output, answer, wires);
    Some(())
}

// `TEXT WORDS`, and a netlist's words.
#[tactic(auto, using(crate::proofs::Room::written_fits))]
fn write_command(input: &mut Input, output: &mut Output) -> Option<()> {
    let len = input.number(b' ', TEXT)?;
    let net = input.number(b'\n', NET)?;
    let mut words = [OLD_WORD; NET];
    let mut text = [OLD_BYTE; TEXT];
    let (net, text) = (&mut words[..net], &mut text[..len]);
    input.fill(net)?;
    let answer = write::write(net, text);
    show_write(output, answer, text);
    Some(())
}

// `NET LEN`, and a text.
fn read_command(input: &mut Input, output: &mut Output) -> Option<()> {
    let net = input.number(b' ', NET)?;
    let len = input.number(b'\n', TEXT)?;
    let mut text = [OLD_BYTE; TEXT];
    let mut words = [OLD_WORD; NET];
    let (text, net) = (&mut text[..len], &mut words[..net]);
    input.fill(text)?;
    let answer = read::read(text, net);
    show_read(output, answer, net);
    Some(())
}

// The command whose first letter was taken.
fn command(first: u8, input: &mut Input, output: &mut Output) -> Option<()> {
    match first {
        b'f' => {
            input.expect(b"latten ")?;
            flatten_command(input, output)
        }
        b'w' => {
            input.expect(b"rite ")?;
            write_command(input, output)
        }
        b'r' => match input.next()? {
            b'u' => {
                input.expect(b"n ")?;
                run_command(input, output)
            }
            b'e' => {
                input.expect(b"ad ")?;
                read_command(input, output)
            }
            _ => None,
        },
        _ => None,
    }
}

// A proved loop has to end, and nothing says that the input does: commands are counted up to a number that no run reaches.
fn main(rt: HostRuntime) {
    let mut input = Input::new(rt.stdin());
    let mut output = Output::new(rt.stdout());
    for _ in 0..u64::MAX {
        let Some(first) = input.next() else {
            break;
        };
        if command(first, &mut input, &mut output).is_none() {
            output.bytes(b"drive: bad command\n");
            break;
        }
    }
    output.flush();
}
