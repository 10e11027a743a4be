// What an order line asks: the shapes that it may have.
#![tactic(auto)]

mod requests;

ghost use Rattle.std.specs.Prelude.{◌≡◌, IfOk};
ghost use Rattle.lines.specs.Lines.{begins_setting, request, asked, Says};

use terms::Refusal;

// How many bytes a line may have.
const MOST_BYTES: usize = 64;

// What a line asks.
#[derive(Clone, Copy, Debug, PartialEq, Eq)]
pub enum Request {
    SetArea { w: u32, h: u32 },
    SetOrigin { ox: i32, oy: i32 },
    AskNumber { i: u32 },
    AskSquare { x: i32, y: i32 },
}

// Whether a line begins with the bytes of AREA or of ORIGIN, whatever it asks.
pub fn begins_setting(line: &[u8]) -> bool
    ensures { result ≡ begins_setting line.now }
{
    words::begins_with(line, b"AREA") || words::begins_with(line, b"ORIGIN")
}

// What a line asks, whatever its bytes are.
pub fn request_of(line: &[u8]) -> Result<Request, Refusal>
    ensures figures { asked result ≡ asked (request line.now) }
    ensures spelling { IfOk result (λ q. Says q line.now) }
{
    if MOST_BYTES < line.len() {
        return Err(Refusal::LongLine);
    }
    requests::made_of(fields::read_three(line))
}
