// The program: it reads order lines from standard input, or from the form that its argument names, and writes a reply to each. It hands bytes to the desk
// and writes the desk's text, and decides nothing. What fails is told in one line on standard error, and ends it with status 1.
#![tactic(auto)]

ghost use Rattle.std.specs.Prelude.{◌≡◌, ◌≤◌, length, take, [], OnOk, IfOk, IfSome};
ghost use Rattle.std.specs.Io.KnownBytes.{Appends, Consumes, IsAtEnd};
ghost use Rattle.replies.specs.Text.{longest};
ghost use Rattle.desk.specs.Desk.{output};
ghost use Rattle.orders.specs.Serving.{Answers, Turns};

use desk::Desk;
use std::env::FillError;
use std::io::{Read, Write};
use std::process::ExitCode;
use std::rt::Env;
use std::{fs, io};

// What failed, which is told: it ends the program.
#[derive(Clone, Copy)]
struct Told;

// Writes text that begins with the reply to a line, or tells that it cannot.
fn write<W: Write>(rt: &HostRuntime, to: &mut W, text: &[u8], line: u32) -> Result<(), Told>
    ensures { OnOk result (Appends (W.contents to.old) (W.contents to.new) text.now) }
{
    streams::write_whole(rt, to, text).map_err(|e| {
        streams::fail_at(
            &mut rt.stderr(),
            b"orders: writing failed at line ",
            line,
            &e,
        );
        Told
    })
}

// A chunk goes to the desk in as many turns as its text needs, and the text of each turn is written.
fn serve<W: Write>(
    rt: &HostRuntime,
    to: &mut W,
    desk: &mut Desk,
    chunk: &[u8],
    out: &mut [u8],
) -> Result<(), Told>
    requires { longest ≤ length out.old }
    ensures { OnOk result (Answers (W.contents to.old) (W.contents to.new) desk.old chunk.now desk.new []) }
{
    let mut left = chunk;
    while !left.is_empty() {
        let line = desk.line;
        let fed = desk.feed(left, out);
        write(rt, to, &out[..fed.written], line)?;
        left = &left[fed.taken..];
    }
    Ok(())
}

// Reads the bytes of lines from that one on, or tells that it cannot: what came of a line before may be part of another number, so it is not answered.
fn read<R: Read>(rt: &HostRuntime, from: &mut R, chunk: &mut [u8], line: u32) -> Result<usize, Told>
    ensures bound { IfOk result (λ n. n ≤ length chunk.new) }
    ensures bytes { IfOk result (λ n. Consumes (R.remaining from.old) (R.remaining from.new) (take n chunk.new)) }
    ensures end { IfOk result (λ n. n ≡ 0 → 1 ≤ length chunk.new → IsAtEnd (R.remaining from.new)) }
{
    streams::read_some(rt, from, chunk).map_err(|e| {
        streams::fail_at(
            &mut rt.stderr(),
            b"orders: reading failed at line ",
            line,
            &e,
        );
        Told
    })
}

// One read and the replies to it, and whether to go on: not at the end of the input, nor with a desk that is closed.
fn turn<R: Read, W: Write>(
    rt: &HostRuntime,
    from: &mut R,
    to: &mut W,
    desk: &mut Desk,
    chunk: &mut [u8],
    out: &mut [u8],
) -> Result<bool, Told>
    requires { longest ≤ length out.old }
    ensures { IfOk result (λ more. 1 ≤ length chunk.old
        → Turns (R.remaining from.old) (R.remaining from.new) (W.contents to.old) (W.contents to.new) desk.old desk.new more) }
{
    let n = read(rt, from, chunk, desk.line)?;
    serve(rt, to, desk, &chunk[..n], out)?;
    Ok(n != 0 && !desk.closed)
}

// Answers the lines of a form, whose bytes a reader hands out. Nothing says that an input ends, so its reads are counted, up to a number that is never
// reached.
fn answer<R: Read, W: Write>(rt: &HostRuntime, from: &mut R, to: &mut W) -> Result<(), Told>
    ensures { OnOk result (IfSome (R.remaining from.old) (λ input. Appends (W.contents to.old) (W.contents to.new) (output input))) }
{
    let mut chunk = [0u8; 65536];
    let mut out = [0u8; 65536];
    let mut desk = Desk::opened();
    for _ in 0..u64::MAX {
        if !turn(rt, from, to, &mut desk, &mut chunk, &mut out)? {
            let end = desk.finish(&mut out);
            return write(rt, to, &out[..end], desk.line);
        }
    }
    Err(Told)
}

// Says that there is no way to the form of that name.
fn fail_on_form(rt: &HostRuntime, name: &[u8], error: &io::Error) -> Told {
    streams::fail_on(&mut rt.stderr(), b"orders: cannot open ", name, error);
    Told
}

// Answers the lines of the form of that name.
fn answer_named(rt: &HostRuntime, name: &str) -> Result<(), Told> {
    match fs::open(rt, name) {
        Ok(mut form) => answer(rt, &mut form, &mut rt.stdout()),
        Err(e) => Err(fail_on_form(rt, name.as_bytes(), &e)),
    }
}

// What the system says where a name is no text, and where it is too long.
const NO_TEXT: i32 = 84;

const TOO_LONG: i32 = 36;

// Says something about the program itself, or tells that it cannot.
fn say(rt: &HostRuntime, text: &[u8]) -> Result<(), Told> {
    streams::write_whole(rt, &mut rt.stdout(), text).map_err(|e| {
        streams::fail(&mut rt.stderr(), b"orders: writing failed", &e);
        Told
    })
}

// Says how the program is called, where it was called otherwise.
fn usage(rt: &HostRuntime) -> Told {
    let _ = streams::write_whole(
        rt,
        &mut rt.stderr(),
        b"usage: orders [FORM | --help | --version]\n",
    );
    Told
}

// Answers an argument: a word that asks about the program, or the name of a form, which the library takes only as text.
fn answer_argument(rt: &HostRuntime, word: &[u8]) -> Result<(), Told> {
    if words::is_word(word, b"--help") {
        return say(
            rt,
            b"orders [FORM]: answers the order lines of FORM, or of standard input, with a reply to each. See orders(1).\n",
        );
    }
    if words::is_word(word, b"--version") {
        return say(rt, b"orders 2.0.0\n");
    }
    if words::begins_with(word, b"-") {
        return Err(usage(rt));
    }
    match std::str::from_utf8(word) {
        Ok(name) => answer_named(rt, name),
        Err(_) => Err(fail_on_form(rt, word, &io::Error::from_raw_os_error(NO_TEXT))),
    }
}

// Answers what the program was called with.
fn answer_call(rt: &HostRuntime) -> Result<(), Told> {
    let mut word = [0u8; 4096];
    match rt.arg(2, &mut word) {
        Err(FillError::NotPresent) => {}
        _ => {
            return Err(usage(rt));
        }
    }
    match rt.arg(1, &mut word) {
        Ok(n) => answer_argument(rt, &word[..n]),
        Err(FillError::NotPresent) => answer(rt, &mut rt.stdin(), &mut rt.stdout()),
        Err(FillError::TooLong) => {
            streams::fail(
                &mut rt.stderr(),
                b"orders: the form's name",
                &io::Error::from_raw_os_error(TOO_LONG),
            );
            Err(Told)
        }
    }
}

fn main(rt: HostRuntime) -> ExitCode {
    match answer_call(&rt) {
        Ok(()) => ExitCode::SUCCESS,
        Err(Told) => ExitCode::FAILURE,
    }
}
