// The library for programs in other languages: one thin function for each call, numbers in and numbers out. Calls that ask or answer squares take the area's
// origin behind its lengths, and squares are signed.
//
// A call that answers values takes a slice for them. It returns the refusal's number, 0 for none, and writes the values to the slice's first places, 0 each
// where it is refused, but for the area in force that a line leaves, the number of runs that have no room and the block of a bad check. A slice that is too
// short is left as it is, and 255 is returned, which is no refusal's number.
#![tactic(auto)]

ghost use Rattle.std.specs.Prelude.{◌++◌, ◌≡◌, ◌≤◌, length, drop, IfErr};
ghost use Rattle.clerk.specs.Clerk.{said};
ghost use Rattle.tables.specs.Tables.{fill_figures, check_figures};
ghost use Rattle.cards.specs.Cards.{length_figures, write_figures, read_figures};
ghost use Rattle.cards.specs.Fitting.{TellsBlock};
ghost use Rattle.windows.specs.Windows.{runs_figures};
ghost use Rattle.boundary.specs.Handling.{area_of, shown, refusal_said, handled_figures};
ghost use Rattle.boundary.specs.Calls.{number_to_square_call, square_to_number_call, finish_square_call, runs_for_window_call, handle_line_call};
ghost use Rattle.boundary.specs.Calls.{fill_by_number_call, fill_by_square_call, check_by_number_call, check_by_square_call};
ghost use Rattle.boundary.specs.Calls.{card_length_call, write_card_call, read_card_call};

use boundary::SHORT;
use cards::Unread;
use clerk::{Handled, Reply};
use leaves::Wrong;
use terms::{Area, Refusal};
use windows::{Unwritten, Window};

// The first places of a slice.
fn put<T: Copy, const N: usize>(res: &mut [T], values: [T; N])
    requires { N ≤ length res.old }
    ensures { res.new ≡ values ++ drop N res.old }
{
    res[..N].copy_from_slice(&values);
}

// x, y and the count of blocks of a number's square.
#[unsafe(no_mangle)]
pub extern "C" fn uvalinda_number_to_square(
    w: u32,
    h: u32,
    ox: i32,
    oy: i32,
    number: u32,
    res: &mut [i32],
) -> u32
    ensures returned { result ≡ (number_to_square_call w h ox oy number res.old).returned }
    ensures values { res.new ≡ (number_to_square_call w h ox oy number res.old).values }
{
    if res.len() < 3 {
        return SHORT;
    }
    match curve::number_to_square(Area { w, h, ox, oy }, number) {
        Ok(s) => {
            put(res, [s.x, s.y, s.blocks as i32]);
            0
        }
        Err(r) => {
            put(res, [0; 3]);
            u32::from(r)
        }
    }
}

// The number and the count of blocks of a square.
#[unsafe(no_mangle)]
pub extern "C" fn uvalinda_square_to_number(
    w: u32,
    h: u32,
    ox: i32,
    oy: i32,
    x: i32,
    y: i32,
    res: &mut [u32],
) -> u32
    ensures returned { result ≡ (square_to_number_call w h ox oy x y res.old).returned }
    ensures values { res.new ≡ (square_to_number_call w h ox oy x y res.old).values }
{
    if res.len() < 2 {
        return SHORT;
    }
    match curve::square_to_number(Area { w, h, ox, oy }, x, y) {
        Ok(n) => {
            put(res, [n.number, n.blocks]);
            0
        }
        Err(r) => {
            put(res, [0; 2]);
            u32::from(r)
        }
    }
}

// x and y of an area's finish square.
#[unsafe(no_mangle)]
pub extern "C" fn uvalinda_finish_square(w: u32, h: u32, ox: i32, oy: i32, res: &mut [i32]) -> u32
    ensures returned { result ≡ (finish_square_call w h ox oy res.old).returned }
    ensures values { res.new ≡ (finish_square_call w h ox oy res.old).values }
{
    if res.len() < 2 {
        return SHORT;
    }
    match curve::finish_square(Area { w, h, ox, oy }) {
        Ok(s) => {
            put(res, [s.x, s.y]);
            0
        }
        Err(r) => {
            put(res, [0; 2]);
            u32::from(r)
        }
    }
}

// An answer that is a count, of a table's blocks or of a card's bytes: to the first place.
fn tell_count(answer: Result<u64, Refusal>, count: &mut [u64]) -> u32
    requires { 1 ≤ length count.old }
    ensures fill { (result ≡ (fill_figures answer).refusal) × (count.new ≡ (fill_figures answer).values ++ drop 1 count.old) }
    ensures length { (result ≡ (length_figures answer).refusal) × (count.new ≡ (length_figures answer).values ++ drop 1 count.old) }
{
    match answer {
        Ok(n) => {
            put(count, [n]);
            0
        }
        Err(r) => {
            put(count, [0]);
            u32::from(r)
        }
    }
}

// Fills a table by number, and counts the blocks of the division.
#[unsafe(no_mangle)]
pub extern "C" fn uvalinda_fill_by_number(
    w: u32,
    h: u32,
    table: &mut [u32],
    blocks: &mut [u64],
) -> u32
    ensures returned { result ≡ (fill_by_number_call w h table.old blocks.old).returned }
    ensures count { blocks.new ≡ (fill_by_number_call w h table.old blocks.old).values }
    ensures table { table.new ≡ (fill_by_number_call w h table.old blocks.old).lent }
{
    if blocks.len() < 1 {
        return SHORT;
    }
    let answer = tables::fill_by_number(Area { w, h, ox: 0, oy: 0 }, table);
    tell_count(answer, blocks)
}

// Fills a table by square, and counts the blocks of the division.
#[unsafe(no_mangle)]
pub extern "C" fn uvalinda_fill_by_square(
    w: u32,
    h: u32,
    table: &mut [u32],
    blocks: &mut [u64],
) -> u32
    ensures returned { result ≡ (fill_by_square_call w h table.old blocks.old).returned }
    ensures count { blocks.new ≡ (fill_by_square_call w h table.old blocks.old).values }
    ensures table { table.new ≡ (fill_by_square_call w h table.old blocks.old).lent }
{
    if blocks.len() < 1 {
        return SHORT;
    }
    let answer = tables::fill_by_square(Area { w, h, ox: 0, oy: 0 }, table);
    tell_count(answer, blocks)
}

// A check's answer: 0 where the table is right, else 1, the first wrong place and the value due there.
fn tell_check(answer: Result<Option<Wrong>, Refusal>, res: &mut [u32]) -> u32
    requires { 3 ≤ length res.old }
    ensures returned { result ≡ (check_figures answer).refusal }
    ensures values { res.new ≡ (check_figures answer).values ++ drop 3 res.old }
{
    match answer {
        Ok(None) => {
            put(res, [0; 3]);
            0
        }
        Ok(Some(wrong)) => {
            put(res, [1, wrong.place, wrong.due]);
            0
        }
        Err(r) => {
            put(res, [0; 3]);
            u32::from(r)
        }
    }
}

// Checks a table by number.
#[unsafe(no_mangle)]
pub extern "C" fn uvalinda_check_by_number(w: u32, h: u32, table: &[u32], res: &mut [u32]) -> u32
    ensures returned { result ≡ (check_by_number_call w h table.now res.old).returned }
    ensures values { res.new ≡ (check_by_number_call w h table.now res.old).values }
{
    if res.len() < 3 {
        return SHORT;
    }
    let answer = tables::check_by_number(Area { w, h, ox: 0, oy: 0 }, table);
    tell_check(answer, res)
}

// Checks a table by square.
#[unsafe(no_mangle)]
pub extern "C" fn uvalinda_check_by_square(w: u32, h: u32, table: &[u32], res: &mut [u32]) -> u32
    ensures returned { result ≡ (check_by_square_call w h table.now res.old).returned }
    ensures values { res.new ≡ (check_by_square_call w h table.now res.old).values }
{
    if res.len() < 3 {
        return SHORT;
    }
    let answer = tables::check_by_square(Area { w, h, ox: 0, oy: 0 }, table);
    tell_check(answer, res)
}

// How many bytes the card of an area has.
#[unsafe(no_mangle)]
pub extern "C" fn uvalinda_card_length(w: u32, h: u32, bytes: &mut [u64]) -> u32
    ensures returned { result ≡ (card_length_call w h bytes.old).returned }
    ensures bytes { bytes.new ≡ (card_length_call w h bytes.old).values }
{
    if bytes.len() < 1 {
        return SHORT;
    }
    let answer = cards::card_length(Area { w, h, ox: 0, oy: 0 });
    tell_count(answer, bytes)
}

// Writes a table as the card of an area.
#[unsafe(no_mangle)]
pub extern "C" fn uvalinda_write_card(
    w: u32,
    h: u32,
    kind: u32,
    table: &[u32],
    file: &mut [u8],
) -> u32
    ensures returned { result ≡ (write_card_call w h kind table.now file.old).returned }
    ensures file { file.new ≡ (write_card_call w h kind table.now file.old).file }
{
    match cards::write_card(Area { w, h, ox: 0, oy: 0 }, kind, table, file) {
        Ok(()) => 0,
        Err(r) => u32::from(r),
    }
}

// A reader's answer: the block of a bad check to the first place, 0 where there is none.
fn tell_read(answer: Result<(), Unread>, block: &mut [u64]) -> u32
    requires { (1 ≤ length block.old) × IfErr answer TellsBlock }
    ensures returned { result ≡ (read_figures answer).refusal }
    ensures block { block.new ≡ (read_figures answer).values ++ drop 1 block.old }
{
    match answer {
        Ok(()) => {
            put(block, [0]);
            0
        }
        Err(Unread::BadCheck { block: bad }) => {
            put(block, [bad]);
            u32::from(Refusal::BadCheck)
        }
        Err(Unread::Refused(r)) => {
            put(block, [0]);
            u32::from(r)
        }
    }
}

// Reads the card of an area into a table, and says which block is the first with a bad check.
#[unsafe(no_mangle)]
pub extern "C" fn uvalinda_read_card(
    w: u32,
    h: u32,
    kind: u32,
    file: &[u8],
    table: &mut [u32],
    block: &mut [u64],
) -> u32
    ensures returned { result ≡ (read_card_call w h kind file.now table.old block.old).returned }
    ensures block { block.new ≡ (read_card_call w h kind file.now table.old block.old).values }
    ensures table { table.new ≡ (read_card_call w h kind file.now table.old block.old).lent }
{
    if block.len() < 1 {
        return SHORT;
    }
    let answer = cards::read_card(Area { w, h, ox: 0, oy: 0 }, kind, file, table);
    tell_read(answer, block)
}

// The answer to a window: how many runs there are, to the first place.
fn tell_runs(answer: Result<u32, Unwritten>, res: &mut [u32]) -> u32
    requires { 1 ≤ length res.old }
    ensures returned { result ≡ (runs_figures answer).refusal }
    ensures count { res.new ≡ (runs_figures answer).values ++ drop 1 res.old }
{
    match answer {
        Ok(count) => {
            put(res, [count]);
            0
        }
        Err(Unwritten::NoRoom { count }) => {
            put(res, [count]);
            u32::from(Refusal::NoRoom)
        }
        Err(Unwritten::Refused(r)) => {
            put(res, [0]);
            u32::from(r)
        }
    }
}

// Writes the runs of a window's numbers as pairs, and says how many there are, also where the slice has no room for them.
#[unsafe(no_mangle)]
pub extern "C" fn uvalinda_runs_for_window(
    w: u32,
    h: u32,
    ox: i32,
    oy: i32,
    x0: i32,
    y0: i32,
    x1: i32,
    y1: i32,
    runs: &mut [u32],
    res: &mut [u32],
) -> u32
    ensures returned { result ≡ (runs_for_window_call w h ox oy x0 y0 x1 y1 runs.old res.old).returned }
    ensures count { res.new ≡ (runs_for_window_call w h ox oy x0 y0 x1 y1 runs.old res.old).values }
    ensures runs { runs.new ≡ (runs_for_window_call w h ox oy x0 y0 x1 y1 runs.old res.old).lent }
{
    if res.len() < 1 {
        return SHORT;
    }
    let window = Window { x0, y0, x1, y1 };
    let answer = windows::runs_for_window(Area { w, h, ox, oy }, window, runs);
    tell_runs(answer, res)
}

// A reply as four numbers: 1 for AREA, 2 for CELL, 3 for NUMBER, 4 for ORIGIN, with its values, or zeros for a refusal.
fn numbers_of(reply: Result<Reply, Refusal>) -> [i64; 4]
    ensures { result ≡ shown (said reply).word (said reply).numbers }
{
    match reply {
        Ok(Reply::AreaSet { squares, x, y, .. }) => [1, squares as i64, x as i64, y as i64],
        Ok(Reply::Cell { x, y, blocks }) => [2, x as i64, y as i64, blocks as i64],
        Ok(Reply::Number { number, blocks }) => [3, number as i64, blocks as i64, 0],
        Ok(Reply::OriginSet { ox, oy }) => [4, ox as i64, oy as i64, 0],
        Err(_) => [0; 4],
    }
}

// The number of a refusal, 0 for any other reply.
fn refusal_said(reply: Result<Reply, Refusal>) -> u32
    ensures { result ≡ refusal_said (said reply).word (said reply).numbers }
{
    match reply {
        Ok(_) => 0,
        Err(r) => u32::from(r),
    }
}

// A reply under the area then in force, 0 by 0 for none: the area, and the reply after it.
fn tell_reply(handled: Handled, res: &mut [i64]) -> u32
    requires { 8 ≤ length res.old }
    ensures returned { result ≡ (handled_figures (area_of handled.clerk.area) (said handled.reply)).refusal }
    ensures values { res.new ≡ (handled_figures (area_of handled.clerk.area) (said handled.reply)).values ++ drop 8 res.old }
{
    let area = handled.clerk.area.unwrap_or(terms::at_post(0, 0));
    let [kind, a, b, c] = numbers_of(handled.reply);
    put(
        res,
        [
            area.w as i64,
            area.h as i64,
            area.ox as i64,
            area.oy as i64,
            kind,
            a,
            b,
            c,
        ],
    );
    refusal_said(handled.reply)
}

// Answers an order line under a caller's area, and says which area is then in force.
#[unsafe(no_mangle)]
pub extern "C" fn uvalinda_handle_line(
    w: u32,
    h: u32,
    ox: i32,
    oy: i32,
    line: &[u8],
    res: &mut [i64],
) -> u32
    ensures returned { result ≡ (handle_line_call w h ox oy line.now res.old).returned }
    ensures values { res.new ≡ (handle_line_call w h ox oy line.now res.old).values }
{
    if res.len() < 8 {
        return SHORT;
    }
    let clerk = clerk::clerk_under(Area { w, h, ox, oy });
    tell_reply(clerk.handle(line), res)
}
