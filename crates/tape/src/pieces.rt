// A tape, played piece by piece as it is read.
ghost use Rattle.std.specs.Prelude.{◌≡◌, [], ◌+◌, ◌*◌, ◌<◌, ◌≤◌, min, length, get_or};
ghost use Rattle.std.proofs.lemmas.List.Edits.{sets};
ghost use Rattle.pages.specs.Bodies.{body_size};
ghost use Rattle.steps.specs.SetUp.{with_body, first_bodies, set_up};
ghost use Rattle.tape.specs.Text.{Put};
ghost use Rattle.tape.specs.Tape.{item_size, attributes_size, next_set, next_item};
ghost use Rattle.tape.specs.Printout.{item_length, set_length};
ghost use Rattle.tape.specs.Pieces.{progress, at_start, most_bodies, bodies_room, one_more, set_up_turn, set_turn, item_turn, turn_at, player, PlayedOn};
ghost use Rattle.tape.specs.Turning.{Turned, Advanced};
ghost use Rattle.tape.specs.declared.Next.TheVariants.{Whole};

use crate::items::{item_size, next_item, next_set, play};
use crate::lines::{bad_line, end_line, sets_line};
use crate::text::{LINE, Line};
use crate::{Next, Progress, Stage};
use card::set_up::set_up;
use pages::bodies::BODY;
use replies::numbers::SUCCESS;
use table::MAX_SETS;

// One body more than a card can have sets: from there on set-up refuses, however many follow.
const MOST: usize = MAX_SETS + 1;

pub const BODIES: usize = MOST * BODY;

const TURNS: usize = 65536;

// One literal for the many ways in which a turn ends.
fn made(stage: Stage, count: u64, used: usize, len: usize, going: bool) -> Progress
    ensures { result ≡ progress stage count used len going }
{
    Progress {
        stage,
        count,
        used,
        len,
        going,
    }
}

// A tape of which nothing is read.
pub fn at_start() -> Progress
    ensures { result ≡ at_start }
{
    made(Stage::Sets, 0, 0, 0, true)
}

// Bytes put at a place.
fn put(out: &mut [u8], at: usize, bytes: &[u8])
    requires { at + length bytes.now ≤ length out.old }
    ensures { out.new ≡ sets out.old at bytes.now }
{
    out[at..at + bytes.len()].copy_from_slice(bytes);
}

fn one_more(n: u64) -> u64
    ensures { result ≡ one_more n }
{
    n.saturating_add(1)
}

// ---- the sets

// A set's body, kept after those before it if there is room. How many there are stands beside the bytes, as n here and below: the
// bodies lie in a buffer of a fixed size (no heap).
fn keep(bodies: &mut [u8], n: u64, body: &[u8])
    requires { (length bodies.old ≡ bodies_room) × (length body.now ≡ attributes_size) }
    ensures { bodies.new ≡ with_body bodies.old n body.now }
{
    if n < MOST as u64 {
        put(bodies, n as usize * BODY, body);
    }
}

// How many bytes of bodies set-up is given.
fn kept_len(n: u64) -> usize
    ensures { result ≡ min n most_bodies * body_size }
{
    n.min(MOST as u64) as usize * BODY
}

fn set_up_turn(table: &mut [u64], bodies: &[u8], line: &mut Line, n: u64) -> Progress
    requires { length bodies.now ≡ bodies_room }
    ensures { Turned (set_up_turn n (set_up (first_bodies bodies.now n) table.old) bodies.now) result table.new bodies.now line.new }
{
    let size = kept_len(n);
    let status = set_up(table, &bodies[..size]);
    sets_line(line, n, status);
    if status == SUCCESS {
        made(Stage::Items, 0, 0, line.len(), true)
    } else {
        made(Stage::Ended, 0, 0, line.len(), false)
    }
}

fn set_turn(
    table: &mut [u64],
    bodies: &mut [u8; BODIES],
    line: &mut Line,
    left: &[u8],
    last: bool,
    n: u64,
) -> Progress
    requires { line.old ≡ [] }
    ensures { Turned (set_turn (next_set left.now last) n table.old bodies.old left.now) result table.new bodies.new line.new }
{
    match next_set(left, last) {
        Next::Whole => {
            keep(bodies, n, &left[1..1 + BODY]);
            made(Stage::Sets, one_more(n), 1 + BODY, 0, true)
        }
        Next::Short => made(Stage::Sets, n, 0, 0, false),
        Next::Bad => {
            bad_line(line, 0);
            made(Stage::Ended, n, 0, line.len(), false)
        }
        Next::Over => set_up_turn(table, bodies, line, n),
    }
}

// ---- the items

fn play_first(table: &mut [u64], line: &mut Line, left: &[u8], n: u64) -> Progress
    requires { (0 < item_size (get_or left.now 0 0)) × (item_length left.now ≤ length left.now) }
    ensures { Turned (item_turn Whole n table.old [] left.now) result table.new [] line.new }
{
    let number = left[0];
    let to = 1 + item_size(number).unwrap();
    play(table, line, number, &left[1..to]);
    made(Stage::Items, one_more(n), to, line.len(), true)
}

fn item_turn(table: &mut [u64], line: &mut Line, left: &[u8], last: bool, n: u64) -> Progress
    requires { line.old ≡ [] }
    ensures { Turned (item_turn (next_item left.now last) n table.old [] left.now) result table.new [] line.new }
{
    match next_item(left, last) {
        Next::Whole => play_first(table, line, left, n),
        Next::Short => made(Stage::Items, n, 0, 0, false),
        Next::Bad => {
            bad_line(line, n);
            made(Stage::Ended, n, 0, line.len(), false)
        }
        Next::Over => {
            end_line(line, n);
            made(Stage::Ended, n, 0, line.len(), false)
        }
    }
}

// ---- a call. Table and bodies are lent by the caller at each call, and each clause speaks of both, so they are passed one by one.

fn turn(
    table: &mut [u64],
    bodies: &mut [u8; BODIES],
    line: &mut Line,
    left: &[u8],
    last: bool,
    stage: Stage,
    n: u64,
) -> Progress
    requires { line.old ≡ [] }
    ensures { Turned (turn_at stage n table.old bodies.old left.now last) result table.new bodies.new line.new }
{
    match stage {
        Stage::Sets => set_turn(table, bodies, line, left, last, n),
        Stage::Items => item_turn(table, line, left, last, n),
        Stage::Ended => made(Stage::Ended, n, 0, 0, false),
    }
}

// Text put after the text so far; the place after it.
fn append(out: &mut [u8], to: usize, text: &[u8]) -> usize
    requires { to + length text.now ≤ length out.old }
    ensures { Put out.old to text.now out.new result }
{
    put(out, to, text);
    to + text.len()
}

// One turn more, if the longest line has room after the text so far.
fn advance(
    table: &mut [u64],
    bodies: &mut [u8; BODIES],
    line: &mut Line,
    out: &mut [u8],
    piece: &[u8],
    last: bool,
    p: Progress,
) -> Progress
    requires { (p.used ≤ length piece.now) × (p.len ≤ length out.old) }
    ensures { Advanced (player p table.old bodies.old out.old) piece.now last (player result table.new bodies.new out.new) }
{
    if out.len() - p.len < LINE {
        return Progress { going: false, ..p };
    }
    line.clear();
    let t = turn(
        table,
        bodies,
        line,
        &piece[p.used..],
        last,
        p.stage,
        p.count,
    );
    let end = append(out, p.len, line.as_bytes());
    made(t.stage, t.count, p.used + t.used, end, t.going)
}

// A tape played on with a piece of its file: the bytes that an earlier call left, and then those that were read since. `last` says
// that the file has no more. Text is written from the start of `out`. What is not used of the piece is to be handed in again.
pub fn play_on(
    table: &mut [u64],
    bodies: &mut [u8; BODIES],
    out: &mut [u8],
    piece: &[u8],
    last: bool,
    p: Progress,
) -> Progress
    ensures { PlayedOn p table.old bodies.old out.old piece.now last result table.new bodies.new out.new }
{
    let mut line = Line::new();
    let mut g = made(p.stage, p.count, 0, 0, true);
    for _ in 0..TURNS {
        g = advance(table, bodies, &mut line, out, piece, last, g);
        if !g.going {
            break;
        }
    }
    g
}
