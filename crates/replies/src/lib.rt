// Replies as text: written to a lent buffer, with the line's number.
#![tactic(auto)]

ghost use Rattle.std.specs.Prelude.{[], ◌∷◌, ◌++◌, ◌≤◌, ◌≡◌, leb, pos, length};
ghost use Rattle.words.specs.Decimal.{decimal, signed_decimal};
ghost use Rattle.clerk.specs.Clerk.{said};
ghost use Rattle.replies.specs.Steps.{bytes_put, Room, Uses};
ghost use Rattle.replies.specs.Text.{spaced, all_spaced, body, text, stop, longest, longest_spaced, longest_pair, longest_body, Writes, if_room};

use clerk::Reply;
use terms::Refusal;

// The longest text: a line's number and a reply with five numbers, each of ten digits, two of them with a minus.
const LONGEST: usize = 73;

// A text that is put together from its end: the bytes of an array from `start` on. So a number's digits, of which the last comes first, are written where they
// stay. (`write!` promises its bytes only where it answers Ok, and no clause of the library says where it does.)
#[derive(Drop)]
struct Text {
    bytes: [u8; LONGEST],
    start: usize,
}

impl Text {
    // No text.
    fn new() -> Text
        ensures none { bytes_put result ≡ [] }
        ensures room { Room longest result }
    {
        Text {
            bytes: [0; LONGEST],
            start: LONGEST,
        }
    }
}

// Puts bytes before a text.
fn put(text: &mut Text, bytes: &[u8])
    requires { Room (length bytes.now) text.old }
    ensures written { bytes_put text.new ≡ bytes.now ++ bytes_put text.old }
    ensures short { Uses (length bytes.now) text.old text.new }
{
    let end = text.start;
    text.start = end - bytes.len();
    text.bytes[text.start..end].copy_from_slice(bytes);
}

// Puts a number before a text, in decimal.
fn put_number(text: &mut Text, n: u32)
    requires { Room 10 text.old }
    ensures written { bytes_put text.new ≡ decimal n ++ bytes_put text.old }
    ensures short { Uses 10 text.old text.new }
{
    text.start = itoa::write_digits(u64::from(n), &mut text.bytes, text.start);
}

// Puts a signed number before a text: its magnitude, and a minus before that where it is below 0.
fn put_signed(text: &mut Text, z: i32)
    requires { Room 11 text.old }
    ensures written { bytes_put text.new ≡ signed_decimal z ++ bytes_put text.old }
    ensures short { Uses 11 text.old text.new }
{
    put_number(text, z.unsigned_abs());
    if z < 0 {
        put(text, b"-");
    }
}

// Puts a number before a text, and a space before the number.
fn put_spaced(text: &mut Text, n: u32)
    requires { Room longest_spaced text.old }
    ensures written { bytes_put text.new ≡ spaced (pos n) ++ bytes_put text.old }
    ensures short { Uses longest_spaced text.old text.new }
{
    put_number(text, n);
    put(text, b" ");
}

// Puts the two signed numbers of a square or an origin before a text, each with a space before it.
fn put_pair(text: &mut Text, x: i32, y: i32)
    requires { Room longest_pair text.old }
    ensures written { bytes_put text.new ≡ all_spaced (x ∷ y ∷ []) ++ bytes_put text.old }
    ensures short { Uses longest_pair text.old text.new }
{
    put_signed(text, y);
    put(text, b" ");
    put_signed(text, x);
    put(text, b" ");
}

// Puts a reply's word and numbers before a text, or a refusal's.
fn put_body(text: &mut Text, reply: Result<Reply, Refusal>)
    requires { Room longest_body text.old }
    ensures written { bytes_put text.new ≡ body (said reply) ++ bytes_put text.old }
    ensures short { Uses longest_body text.old text.new }
{
    match reply {
        Ok(
            Reply::AreaSet {
                w,
                h,
                squares,
                x,
                y,
            },
        ) => {
            put_pair(text, x, y);
            put_spaced(text, squares);
            put_spaced(text, h);
            put_spaced(text, w);
            put(text, b" AREA");
        }
        Ok(Reply::OriginSet { ox, oy }) => {
            put_pair(text, ox, oy);
            put(text, b" ORIGIN");
        }
        Ok(Reply::Cell { x, y, blocks }) => {
            put_spaced(text, blocks);
            put_pair(text, x, y);
            put(text, b" CELL");
        }
        Ok(Reply::Number { number, blocks }) => {
            put_spaced(text, blocks);
            put_spaced(text, number);
            put(text, b" NUMBER");
        }
        Err(refusal) => {
            put_spaced(text, u32::from(refusal));
            put(text, b" REFUSED");
        }
    }
}

// Whether a buffer has room for the longest text.
pub fn has_room(out: &[u8]) -> bool
    ensures { result ≡ leb longest (length out.now) }
{
    LONGEST <= out.len()
}

// Writes a text at the front of a buffer, and says how long it is; or nothing, if the longest text would not fit.
fn write(out: &mut [u8], text: &Text) -> usize
    requires { Room 0 text.now }
    ensures written { Writes out.old 0 (if_room out.old 0 (bytes_put text.now)) out.new result }
    ensures short { result ≤ longest }
{
    if !has_room(out) {
        return 0;
    }
    let bytes = &text.bytes[text.start..];
    out[..bytes.len()].copy_from_slice(bytes);
    bytes.len()
}

// Writes the reply to a line at the front of a buffer, and says how long it is. Nothing is written if the longest text would not fit.
pub fn write_reply(out: &mut [u8], line: u32, reply: Result<Reply, Refusal>) -> usize
    ensures written { Writes out.old 0 (if_room out.old 0 (text line (said reply))) out.new result }
    ensures short { result ≤ longest }
{
    let mut text = Text::new();
    put(&mut text, b"\n");
    put_body(&mut text, reply);
    put_number(&mut text, line);
    write(out, &text)
}

// The same for the line after which none is read.
pub fn write_stop(out: &mut [u8], line: u32) -> usize
    ensures written { Writes out.old 0 (if_room out.old 0 (stop line)) out.new result }
    ensures short { result ≤ longest }
{
    let mut text = Text::new();
    put(&mut text, b" STOP\n");
    put_number(&mut text, line);
    write(out, &text)
}
