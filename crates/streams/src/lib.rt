// Reading and writing that lose nothing: a call that was interrupted, or that would have to wait, is tried again after a pause.
#![tactic(auto)]

mod waits;

ghost use Rattle.std.specs.Prelude.{◌≡◌, ◌≢◌, ◌≤◌, ◌↔◌, ◌⊎◌, ℕ, length, take, IsTrue, IfErr, OnOk, OnErr};
ghost use Rattle.std.specs.IoError.{error_kind};
ghost use Rattle.std.specs.Io.{ReadsAtMost, WritesAtMost};
ghost use Rattle.std.specs.Io.KnownBytes.{Appends, ReadConsumes, WriteAppends};

use arrayvec::{ArrayString, ArrayVec};
use std::fmt::Write as _;
use std::io::{ErrorKind, Read, Write};
use std::rt::Clock;
use std::{fmt, io};

// Whether a call that failed may do better later: a signal interrupted it, or it would have had to wait.
fn passes(error: &io::Error) -> bool
    ensures { IsTrue result ↔ ((error_kind error.now ≡ ErrorKind.Interrupted) ⊎ (error_kind error.now ≡ ErrorKind.WouldBlock)) }
{
    matches!(error.kind(), ErrorKind::Interrupted | ErrorKind::WouldBlock)
}

// One read, in as many tries as it takes. No bytes without a failure are the end of the input. Nothing says that a try succeeds some day, so they are
// counted, up to a number that is never reached.
pub fn read_some<R: Read>(clock: &impl Clock, from: &mut R, buf: &mut [u8]) -> io::Result<usize>
    ensures bound { ReadsAtMost result buf.new }
    ensures bytes { ReadConsumes (R.remaining from.old) (R.remaining from.new) result buf.new }
    ensures retried { IfErr result (λ e. (error_kind e ≢ ErrorKind.Interrupted) × (error_kind e ≢ ErrorKind.WouldBlock)) }
{
    for _ in 0..u64::MAX {
        match from.read(buf) {
            Err(e) if passes(&e) => waits::wait(clock),
            read => return read,
        }
    }
    Err(io::Error::from(ErrorKind::TimedOut))
}

// One write: no bytes without a failure are to be tried again.
fn write_some<W: Write>(clock: &impl Clock, to: &mut W, buf: &[u8]) -> io::Result<usize>
    ensures bound { WritesAtMost result buf.now }
    ensures bytes { WriteAppends (W.contents to.old) (W.contents to.new) result buf.now }
    ensures retried { IfErr result (λ e. (error_kind e ≢ ErrorKind.Interrupted) × (error_kind e ≢ ErrorKind.WouldBlock)) }
{
    match to.write(buf) {
        Ok(0) => {}
        Err(e) if passes(&e) => {}
        written => return written,
    }
    waits::wait(clock);
    Ok(0)
}

// Writes all of a buffer, in as many tries as it takes, or fails with some of it written.
pub fn write_whole<W: Write>(clock: &impl Clock, to: &mut W, buf: &[u8]) -> io::Result<()>
    ensures all { OnOk result (Appends (W.contents to.old) (W.contents to.new) buf.now) }
    ensures some { OnErr result ((n : ℕ) × (n ≤ length buf.now) × Appends (W.contents to.old) (W.contents to.new) (take n buf.now)) }
    ensures retried { IfErr result (λ e. (error_kind e ≢ ErrorKind.Interrupted) × (error_kind e ≢ ErrorKind.WouldBlock)) }
{
    let mut left = buf;
    for _ in 0..u64::MAX {
        if left.is_empty() {
            return Ok(());
        }
        let n = write_some(clock, to, left)?;
        left = &left[n..];
    }
    Err(io::Error::from(ErrorKind::TimedOut))
}

// Why the system says that a call failed: the library puts the number of the system's error behind that. No such text has 320 bytes.
#[derive(Drop)]
struct Why<'a>(&'a io::Error);

impl fmt::Display for Why<'_> {
    fn fmt<W: fmt::Write>(&self, f: &mut fmt::Formatter<W>) -> fmt::Result {
        let mut text = ArrayString::<320>::new();
        let _ = write!(text, "{}", self.0);
        match text.split_once(" (os error ") {
            Some((why, _)) => f.write_str(why),
            None => f.write_str(text.as_str()),
        }
    }
}

// A line on standard error, or what stands for it: what failed, and why the system says that it did. Each of its parts is one write, which is tried whatever
// became of the one before: a line whose front is refused still gets its end. What failed is bytes, as a name may be, and a format takes text alone.
pub fn fail<W: Write>(to: &mut W, what: &[u8], error: &io::Error) {
    let _ = to.write_all(what);
    let _ = to.write_all(b": ");
    let _ = write!(to, "{}", Why(error));
    let _ = to.write_all(b"\n");
}

// The longest that is said of what failed: what is longer is cut.
const LONGEST: usize = 4096;

// The same, with a name or with the number of a line: the two are one part.
pub fn fail_on<W: Write>(to: &mut W, what: &[u8], name: &[u8], error: &io::Error) {
    let mut said = ArrayVec::<u8, LONGEST>::new();
    let _ = said.write(what);
    let _ = said.write(name);
    fail(to, &said, error);
}

pub fn fail_at<W: Write>(to: &mut W, what: &[u8], line: u32, error: &io::Error) {
    let mut digits = ArrayString::<20>::new();
    let _ = write!(digits, "{line}");
    fail_on(to, what, digits.as_bytes(), error);
}
