// Whether a file holds the right table by number: the walk is that of a check, over the file's words in place of a table. A small block of the division is
// filled into a buffer and compared with the words; one that repeats another is compared with the words of the other. The file's own blocks, of 512 bytes,
// have 126 places of the table each, and are called so.
#![tactic(auto)]

ghost use Rattle.std.specs.Prelude.{◌≡◌, ◌+◌, ◌*◌, ◌≤◌, ◌<◌, length};
ghost use Rattle.terms.specs.Terms.{Limits, past_32_bits};
ghost use Rattle.terms.specs.Telling.{Tells};
ghost use Rattle.division.specs.declared.Choice.TheVariants.{StraightRun, LongCut, UCut};
ghost use Rattle.division.specs.Division.{choice};
ghost use Rattle.division.specs.Forms.{block};
ghost use Rattle.copies.specs.Copies.{Agree, Again};
ghost use Rattle.stretches.specs.Stretch.{Lies};
ghost use Rattle.sectors.specs.Sectors.{words_of};
ghost use Rattle.holdings.specs.Holdings.{word_for, table_in, Reaches, Entered, Repeated, right_one, block_right, AllRight};

use copies::Image;
use division::Choice;
use leaves::{ByNumber, Numbered};
use terms::Area;

// How many entries are computed at a time: what two blocks of the file hold, 1,008 bytes of stack.
const AT_A_TIME: usize = 252;

// The number of the word that place p of a table has.
pub fn word_for(p: u32) -> usize
    ensures { result ≡ word_for p }
{
    128 * (1 + p as usize / 126) + p as usize % 126
}

// Whether the file has these entries from place `at` on, as far at a time as they lie in one block of the file: the pieces differ in length, so that no
// chunks are they.
fn entries_held(file: &[u8], at: u32, entries: &[u32]) -> bool
    requires { Reaches file.now (at + length entries.now) × (at + length entries.now < past_32_bits) }
    ensures { Tells result (Entered (words_of file.now) at entries.now) }
{
    let mut done: usize = 0;
    while done < entries.len() {
        let p = at + done as u32;
        let m = (entries.len() - done).min(126 - p as usize % 126);
        let words = &entries[done..done + m];
        if !sectors::has_words(&file[4 * word_for(p)..], words) {
            return false;
        }
        done += m;
    }
    true
}

// Whether n words from `to` on are the images of those from `from` on. Those that are get counted: a test of all could end early, and takes them one by one.
fn words_agree(file: &[u8], from: usize, to: usize, n: usize, by: Image) -> bool
    requires { (from ≤ to) × (4 * (to + n) ≤ length file.now) }
    ensures { Tells result (Agree by.«opposite» by.c (words_of file.now) from to n) }
{
    let same = (0..n)
        .filter(|i| { sectors::word_at(file, to + *i) == by.of(sectors::word_at(file, from + *i)) })
        .count();
    same == n
}

// Whether the words of n places from `to` on are the images of those from `from` on, as far at a time as both lie in one block of the file: these pieces
// too differ in length.
fn images_held(file: &[u8], from: u32, to: u32, n: u32, by: Image) -> bool
    requires { (from ≤ to) × Reaches file.now (to + n) × (to + n < past_32_bits) }
    ensures { Tells result (Repeated by.«opposite» by.c (words_of file.now) from to n) }
{
    let mut done: u32 = 0;
    while done < n {
        let p = from + done;
        let q = to + done;
        let m = (n - done).min(126 - p % 126).min(126 - q % 126);
        if !words_agree(file, word_for(p), word_for(q), m as usize, by) {
            return false;
        }
        done += m;
    }
    true
}

// Whether block k stands, by comparing it with block j, which it repeats.
fn repeat_held(file: &[u8], j: Numbered, k: Numbered, area: Area, opposite: bool) -> bool
    requires { Reaches file.now (area.w * area.h)
        × Again area.w area.h (table_in (words_of file.now) (area.w * area.h)) (block j.placed) j.first (block k.placed) k.first «opposite» }
    ensures { result ≡ block_right area.w (table_in (words_of file.now) (area.w * area.h)) (block k.placed) k.first }
{
    let by = Image::between(j.placed, k.placed, area, opposite);
    images_held(file, j.first, k.first, k.placed.a * k.placed.b, by)
}

// Whether all was right so far, and square number n is too: its entry is p.
fn right_one(file: &[u8], n: u32, p: u32, area: Area, so_far: bool) -> bool
    requires { Reaches file.now (area.w * area.h) × (n < area.w * area.h) }
    ensures { result ≡ right_one (table_in (words_of file.now) (area.w * area.h)) so_far n p }
{
    if sectors::word_at(file, word_for(n)) == p {
        return so_far;
    }
    false
}

// A straight block, square by square along its run. Few have no room in the buffer: those of long strips, as of an area 1 to 3 wide.
fn straight_held(file: &[u8], k: Numbered, area: Area) -> bool
    requires { Reaches file.now (area.w * area.h)
        × (Lies area.w area.h (block k.placed) k.first × (choice k.placed.a k.placed.b ≡ StraightRun)) }
    ensures { result ≡ block_right area.w (table_in (words_of file.now) (area.w * area.h)) (block k.placed) k.first }
{
    let w = area.w;
    let mut right = true;
    for i in 0..k.placed.a {
        let p = leaves::place_of(
            division::stepped(k.placed.along, i, k.placed.back),
            k.placed.across,
            k.placed.turned,
            w,
        );
        right = right_one(file, k.first + i, p, area, right);
    }
    right
}

// A block that has room in the buffer, filled there and compared.
fn filled_held(file: &[u8], k: Numbered, area: Area, buffer: &mut [u32]) -> bool
    requires { Reaches file.now (area.w * area.h) × Lies area.w area.h (block k.placed) k.first
        × (k.placed.a * k.placed.b ≤ length buffer.old) }
    ensures { result ≡ block_right area.w (table_in (words_of file.now) (area.w * area.h)) (block k.placed) k.first }
{
    let entries = &mut buffer[..(k.placed.a * k.placed.b) as usize];
    let in_buffer = Numbered {
        placed: k.placed,
        first: 0,
    };
    fills::fill_block::<ByNumber>(entries, in_buffer, area);
    entries_held(file, k.first, entries)
}

// Whether a block stands in the file's table from its number on. It and the two cuts call each other; the block's area falls.
#[cycle(held)]
fn block_held(file: &[u8], k: Numbered, area: Area, buffer: &mut [u32]) -> bool
    requires { Reaches file.now (area.w * area.h) × Lies area.w area.h (block k.placed) k.first }
    ensures { result ≡ block_right area.w (table_in (words_of file.now) (area.w * area.h)) (block k.placed) k.first }
{
    let n = k.placed.a * k.placed.b;
    if n as usize <= buffer.len() {
        return filled_held(file, k, area, buffer);
    }
    match division::choose(k.placed.a, k.placed.b) {
        Choice::StraightRun => straight_held(file, k, area),
        Choice::StraightSide => straight_held(file, k.exchanged(), area),
        Choice::LongCut => long_cut_held(file, k, area, buffer),
        Choice::UCut => u_cut_held(file, k, area, buffer),
    }
}

// The two parts of a long cut. The second repeats the first where it is as long.
#[cycle(held)]
fn long_cut_held(file: &[u8], k: Numbered, area: Area, buffer: &mut [u32]) -> bool
    requires { Reaches file.now (area.w * area.h) × (Lies area.w area.h (block k.placed) k.first × (choice k.placed.a k.placed.b ≡ LongCut)) }
    ensures { result ≡ block_right area.w (table_in (words_of file.now) (area.w * area.h)) (block k.placed) k.first }
{
    let near = k.long_part(false);
    let far = k.long_part(true);
    if !block_held(file, near, area, buffer) {
        return false;
    }
    if near.placed.a == far.placed.a {
        return repeat_held(file, near, far, area, false);
    }
    block_held(file, far, area, buffer)
}

// The three parts of a U cut. C repeats A, turned round, where the run is even.
#[cycle(held)]
fn u_cut_held(file: &[u8], k: Numbered, area: Area, buffer: &mut [u32]) -> bool
    requires { Reaches file.now (area.w * area.h) × (Lies area.w area.h (block k.placed) k.first × (choice k.placed.a k.placed.b ≡ UCut)) }
    ensures { result ≡ block_right area.w (table_in (words_of file.now) (area.w * area.h)) (block k.placed) k.first }
{
    let up = k.part_a();
    if !block_held(file, up, area, buffer) {
        return false;
    }
    if !block_held(file, k.part_b(), area, buffer) {
        return false;
    }
    let down = k.part_c();
    if k.placed.a % 2 == 0 {
        return repeat_held(file, up, down, area, true);
    }
    block_held(file, down, area, buffer)
}

// Whether the file's table is the right one.
pub fn table_held(file: &[u8], area: Area) -> bool
    requires { Limits area.w area.h × Reaches file.now (area.w * area.h) }
    ensures { Tells result (AllRight (words_of file.now) area.w area.h) }
{
    // Not 0: an array of zeros is a call of `memset`, and the library calls nothing.
    let mut buffer: [u32; AT_A_TIME] = [1; AT_A_TIME];
    block_held(file, Numbered::whole(area), area, &mut buffer)
}
