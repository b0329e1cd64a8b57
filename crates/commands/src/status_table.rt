// 01's status table, for every command.
ghost use Rattle.std.specs.Prelude.{◌≡◌, true, not, ◌&&◌, ◌||◌, [], ◌∷◌, ◌++◌, eqb, ltb, ℕ, if◌then◌else◌};
ghost use Rattle.replies.specs.Numbers.{number, invalid_field, invalid_log_page, not_saveable};
ghost use Rattle.replies.specs.Status.{line, first_of, status_no};
ghost use Rattle.commands.specs.Commands.{save, select};
ghost use Rattle.commands.specs.Shapes.{log_opcode, is_choice, kind_of, needs_in, needs_out};
ghost use Rattle.commands.specs.StatusTable.{part_wrong, early_lines, unknown_number, select_of, is_off, window_wrong, short_line, request_line, selects_early, late_lines};
ghost use Rattle.commands.specs.declared.Kind.{Kind};

use crate::asked::Asked;
use crate::shapes::{LOG, needs_in, needs_out, shape_of};
use crate::{
    Command, DWORD, Kind, Shape, WINDOW_D, WINDOW_N, chosen_by, dwords_of, offset_of, opcode_of,
    saves, selected_by, window_cause, window_value,
};
use desk::REQUESTS;
use record::State;
use replies::Refusal;
use rules::changes::refuses;
use rules::{Cause, is_early};

const DWORDS_MAXIMUM: u64 = 1024;

fn part_wrong(k: Kind, c: Command) -> bool
    ensures { result ≡ part_wrong k c }
{
    let size = shape_of(k).page as u64;
    let from = offset_of(c);
    let moved = dwords_of(c);
    !(from % DWORD == 0) | (size < from) | (DWORDS_MAXIMUM < moved)
}

// Only of a read of a log page is the part looked at.
fn log_wrong(part: bool, k: Kind, c: Command) -> bool
    ensures { result ≡ (part && part_wrong k c) }
{
    part && part_wrong(k, c)
}

// The rows Save, and Select with the part of a page that is asked.
fn fields_status(s: Shape, k: Kind, c: Command) -> Result<(), Refusal>
    ensures { status_no result ≡ first_of (line (s.save && save c) not_saveable ∷ line (s.select && not (eqb (select c) 0) || s.part && part_wrong k c) invalid_field ∷ []) }
{
    let save = saves(c);
    let select = selected_by(c);
    let wrong = log_wrong(s.part, k, c);
    replies::first(&[
        (s.save & save, Refusal::NotSaveable),
        ((s.select & !(select == 0)) | wrong, Refusal::InvalidField),
    ])
}

fn has_choice(s: Shape, choice: u32) -> bool
    ensures { result ≡ is_choice s.choice choice }
{
    s.choice.is_none_or(|its| choice == its)
}

// The refusal of a FID, CNS or page that is not listed.
fn unlisted(opcode: u32) -> Refusal
    ensures { number result ≡ (if eqb opcode log_opcode then invalid_log_page else invalid_field) }
{
    if opcode == LOG {
        Refusal::InvalidLogPage
    } else {
        Refusal::InvalidField
    }
}

// The rows before the set is looked up. Where the command is not listed, its kind has another opcode, or another FID, CNS or page.
pub fn early_status(k: Kind, c: Command) -> Result<(), Refusal>
    requires { k ≡ kind_of c }
    ensures { status_no result ≡ first_of (early_lines c) }
{
    let s = shape_of(k);
    let opcode = opcode_of(c);
    let choice = chosen_by(c);
    if !c.whole {
        return Err(Refusal::BadCommandLength);
    }
    if opcode != s.opcode {
        return Err(Refusal::InvalidOpcode);
    }
    if !has_choice(s, choice) {
        return Err(unlisted(opcode));
    }
    fields_status(s, k, c)
}

// The select whose entry in the table of window changes is asked.
fn select_of(k: Kind, c: Command) -> Cause
    ensures { result ≡ select_of k c }
{
    if shape_of(k).window {
        window_cause(c)
    } else {
        Cause::SelectN
    }
}

// Only of a command of 14h is the entry asked.
fn is_off(k: Kind, c: Command, s: State) -> bool
    ensures { result ≡ is_off k c s }
{
    shape_of(k).on && refuses(s.window, select_of(k, c))
}

fn window_wrong(k: Kind, c: Command, s: State) -> bool
    ensures { result ≡ window_wrong k c s }
{
    let shape = shape_of(k);
    let off = is_off(k, c, s);
    let value = window_value(c);
    off | (shape.window & !((value == WINDOW_D) | (value == WINDOW_N)))
}

fn too_short(k: Kind, c: Command, given: usize, room: usize) -> bool
    ensures { result ≡ (ltb given (needs_in k) || ltb room (needs_out k c)) }
{
    (given < needs_in(k)) | ((room as u64) < needs_out(k, c))
}

// Only of a command that selects a window is the time looked at.
fn selects_early(k: Kind, c: Command, s: State) -> bool
    ensures { result ≡ selects_early k c s }
{
    shape_of(k).window && is_early(s, window_cause(c))
}

// The rows after it.
fn late_status(k: Kind, c: Command, given: usize, room: usize, s: State) -> Result<(), Refusal>
    ensures { status_no result ≡ first_of (late_lines k c given room s) }
{
    if window_wrong(k, c, s) {
        return Err(Refusal::InvalidField);
    }
    if too_short(k, c, given, room) {
        return Err(Refusal::TooShort);
    }
    if selects_early(k, c, s) {
        return Err(Refusal::TooEarly);
    }
    Ok(())
}

// The status of a command whose early rows are asked already.

// A set that is not in the table always refuses it.
pub fn unknown_refusal(asked: Asked) -> Refusal
    ensures { number result ≡ first_of (early_lines asked.command ++ line true unknown_number ∷ []) }
{
    asked.early.err().unwrap_or(Refusal::InvalidField)
}

pub fn found_status(asked: Asked, given: usize, room: usize, s: State) -> Result<(), Refusal>
    ensures { status_no result ≡ first_of (early_lines asked.command ++ late_lines asked.kind asked.command given room s) }
{
    asked.early?;
    late_status(asked.kind, asked.command, given, room, s)
}

pub fn view_status(asked: Asked, given: usize, room: usize) -> Result<(), Refusal>
    ensures { status_no result ≡ first_of (early_lines asked.command ++ short_line asked.kind asked.command given room ∷ []) }
{
    asked.early?;
    if too_short(asked.kind, asked.command, given, room) {
        return Err(Refusal::TooShort);
    }
    Ok(())
}

// A request needs no data and no room; `waiting`: so many wait already.
pub fn request_status(asked: Asked, waiting: u64) -> Result<(), Refusal>
    ensures { (given room : ℕ) → status_no result ≡ first_of (early_lines asked.command ++ short_line Kind.EventRequest asked.command given room ∷ request_line Kind.EventRequest waiting ∷ []) }
{
    asked.early?;
    if REQUESTS <= waiting {
        return Err(Refusal::TooManyRequests);
    }
    Ok(())
}
