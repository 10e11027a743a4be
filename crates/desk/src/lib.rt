// The desk: bytes in, in pieces of any size, and the replies to their lines out.
#![tactic(auto)]

ghost use Rattle.std.specs.Prelude.{◌≡◌, ◌≤◌, length};
ghost use Rattle.replies.specs.Text.{longest, Writes, if_room};
ghost use Rattle.desk.specs.Desk.{last_answered};
ghost use Rattle.desk.specs.Steps.{kept_of, none_kept, with_byte};
ghost use Rattle.desk.specs.Steps.{reply_text, at_first, stopped, behind_newline, longer, next_desk, prints, prints_last, Feeds};

use clerk::Clerk;

// How many bytes of a line are kept: a line of over 64 is refused, whatever it says, so they decide.
pub const KEPT: usize = 65;

// The last line that is answered.
const LAST_ANSWERED: u32 = 65535;

// The bytes that are kept of a line: the first `count` of an array. (The library's `ArrayVec` holds such bytes too, but is no `Copy`, as a desk has to be.)
#[derive(Clone, Copy)]
pub struct Begun {
    bytes: [u8; KEPT],
    count: usize,
}

impl Begun {
    // No bytes.
    pub fn new() -> Begun
        ensures { result ≡ none_kept }
    {
        Begun {
            bytes: [0; KEPT],
            count: 0,
        }
    }

    // One byte more, if it is among those that decide.
    #[tactic(auto, using(crate::proofs::Bytes::byte_put))]
    pub fn push(&mut self, b: u8)
        ensures { self.new ≡ with_byte self.old b }
    {
        if self.count < KEPT {
            self.bytes[self.count] = b;
            self.count += 1;
        }
    }

    // The bytes. No count is past the end of the array; one that were would stand for all of it, so that nothing has to be asked of a desk.
    pub fn bytes(&self) -> &[u8]
        ensures { result.now ≡ kept_of self.now }
    {
        &self.bytes[..self.count.min(KEPT)]
    }
}

// Where the desk stands: the clerk, the number of the line that is begun or next, the bytes of it that are kept, and whether it is closed: no more is read.
// That is a flag, since a closed desk still has its line and its clerk.
#[derive(Clone, Copy)]
pub struct Desk {
    pub clerk: Clerk,
    pub line: u32,
    pub begun: Begun,
    pub closed: bool,
}

// How many bytes of a chunk a desk took, and how many it wrote for them.
#[derive(Clone, Copy)]
pub struct Fed {
    pub taken: usize,
    pub written: usize,
}

impl Desk {
    // A desk before its first byte.
    pub fn opened() -> Desk
        ensures { result ≡ at_first }
    {
        Desk {
            clerk: Clerk::new(),
            line: 1,
            begun: Begun::new(),
            closed: false,
        }
    }

    // It reads no more.
    pub fn close(&mut self)
        ensures { self.new ≡ stopped self.old }
    {
        self.closed = true;
    }

    // A byte of a line is kept, if it is among those that decide.
    fn keep(&mut self, b: u8)
        ensures { self.new ≡ longer self.old b }
    {
        self.begun.push(b);
    }

    // The line that is begun is answered, and the next one is begun.
    fn answer(&mut self, out: &mut [u8]) -> usize
        requires { self.old.line ≤ last_answered }
        ensures next { self.new ≡ behind_newline self.old }
        ensures written { Writes out.old 0 (if_room out.old 0 (reply_text self.old)) out.new result }
        ensures short { result ≤ longest }
    {
        let handled = self.clerk.handle(self.begun.bytes());
        let written = replies::write_reply(out, self.line, handled.reply);
        self.clerk = handled.clerk;
        self.line += 1;
        self.begun = Begun::new();
        written
    }

    // One byte; how many are written for it.
    fn step(&mut self, b: u8, out: &mut [u8]) -> usize
        requires { longest ≤ length out.old }
        ensures next { self.new ≡ next_desk self.old b }
        ensures written { Writes out.old 0 (prints self.old b) out.new result }
        ensures short { result ≤ longest }
    {
        if self.closed {
            return 0;
        }
        if LAST_ANSWERED < self.line {
            self.close();
            return replies::write_stop(out, self.line);
        }
        if b == b'\n' {
            return self.answer(out);
        }
        self.keep(b);
        0
    }

    // Takes the bytes of a chunk one by one, as long as there is room to answer.
    pub fn feed(&mut self, chunk: &[u8], out: &mut [u8]) -> Fed
        ensures fed { Feeds self.old
            (record { chunk = chunk.now; out = out.old })
            (record { desk = self.new; taken = result.taken; out = out.new; written = result.written }) }
        ensures among { result.taken ≤ length chunk.now }
        ensures within { result.written ≤ length out.old }
    {
        let mut written = 0;
        for (taken, b) in chunk.iter().enumerate() {
            if !replies::has_room(&out[written..]) {
                return Fed { taken, written };
            }
            written += self.step(*b, &mut out[written..]);
        }
        Fed {
            taken: chunk.len(),
            written,
        }
    }

    // Answers the line that is begun, at the end of the input, or says STOP for a line 65,536.
    pub fn finish(&self, out: &mut [u8]) -> usize
        ensures written { Writes out.old 0 (if_room out.old 0 (prints_last self.now)) out.new result }
        ensures short { result ≤ longest }
    {
        if self.closed || self.begun.bytes().is_empty() {
            return 0;
        }
        if self.line <= LAST_ANSWERED {
            let handled = self.clerk.handle(self.begun.bytes());
            return replies::write_reply(out, self.line, handled.reply);
        }
        replies::write_stop(out, self.line)
    }
}
