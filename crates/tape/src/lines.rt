// The lines of a printout, where a status is printed as its number. Each is put in place of what a line held, and only that of a notice
// goes after it.
ghost use Rattle.std.specs.Prelude.{◌≡◌, ◌+◌, ◌≤◌, ◌++◌, length};
ghost use Rattle.tape.specs.Text.{sets_line, end_line, bad_line, item_line, told_line, notice_line, notice_room};
ghost use Rattle.tape.specs.Pieces.{line_room};

use crate::text::Line;
use replies::{NOTICE, Notice};

pub fn sets_line(line: &mut Line, n: u64, status: u16)
    ensures { line.new ≡ sets_line n status }
{
    line.clear();
    line.text(b"sets ");
    line.decimal(n);
    line.text(b" ");
    line.hex(4, u64::from(status));
    line.text(b"\n");
}

pub fn end_line(line: &mut Line, n: u64)
    ensures { line.new ≡ end_line n }
{
    line.clear();
    line.text(b"end ");
    line.decimal(n);
    line.text(b"\n");
}

pub fn bad_line(line: &mut Line, n: u64)
    ensures { line.new ≡ bad_line n }
{
    line.clear();
    line.text(b"bad ");
    line.decimal(n);
    line.text(b"\n");
}

// The line of an answer: its status, its dword 0 and, if given, its data. It leaves room for that of a notice.
pub(crate) fn item_line(line: &mut Line, status: u16, dword: u32, bytes: &[u8])
    requires { length bytes.now ≤ 4096 }
    ensures { (line.new ≡ item_line (record { status = status; dword = dword; bytes = bytes.now })) × (length line.new + notice_room ≤ line_room) }
{
    line.clear();
    line.hex(4, u64::from(status));
    line.text(b" ");
    line.hex(8, u64::from(dword));
    line.data(bytes);
    line.text(b"\n");
}

// The line of a notice, after the item's own: the request's identifier and its dword 0. No notice, no line.
pub(crate) fn notice_line(line: &mut Line, notice: Notice)
    requires { length line.old + notice_room ≤ line_room }
    ensures { line.new ≡ line.old ++ notice_line notice }
{
    if let Some(id) = notice {
        told_line(line, id);
    }
}

fn told_line(line: &mut Line, id: u16)
    requires { length line.old + notice_room ≤ line_room }
    ensures { line.new ≡ line.old ++ told_line id }
{
    line.hex(4, u64::from(id));
    line.text(b" ");
    line.hex(8, u64::from(NOTICE));
    line.text(b"\n");
}
