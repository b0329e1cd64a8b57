// What a command's 64 bytes say, 01's commands as one table, and its status table. Nothing here knows of a table of sets.
#![tactic(auto)]

pub mod asked;
pub mod shapes;
pub mod status_table;

ghost use Rattle.std.specs.Prelude.{◌≡◌, ◌-◌, ◌<◌, ◌≤◌, length};
ghost use Rattle.commands.specs.Commands.{command_size, dwords_of, command_in, bits, opcode, chosen, save, select, feature_set, enable, window_value, cause_by, selects_d, window_cause, retain, dwords, log_set, offset, asked, identifier, turns_on};

use octets::numbers::word;
use record::SetId;
use rules::Cause;

// The dwords that are looked at, and whether the command is of 64 bytes. `whole` stands beside them, since a command of another length
// is read too: its rows of the status table come after that of the table of sets.
#[derive(Clone, Copy)]
pub struct Command {
    pub whole: bool,
    pub cdw0: u32,
    pub cdw10: u32,
    pub cdw11: u32,
    pub cdw12: u32,
    pub cdw13: u32,
}

// The commands: Set and Get Features 0Bh (notices), 13h (config) and 14h (window), Get Log Page 0Ah and 0Bh, Asynchronous Event
// Request, Identify 04h.
#[derive(Clone, Copy)]
pub enum Kind {
    SetNotices,
    SetConfig,
    SetWindow,
    GetNotices,
    GetConfig,
    GetWindow,
    ReadLatency,
    ReadAggregate,
    EventRequest,
    Identify,
}

// Whom a command names: no set, or the one in CDW11 15:0 of a feature command or in 31:16 of a log read.
#[derive(Clone, Copy)]
pub enum Whom {
    NoSet,
    FeatureSet,
    LogSet,
}

// A row of the table of commands. Each bool is whether a row of the status table looks at it, and stands beside no value.
#[derive(Clone, Copy)]
pub struct Shape {
    pub opcode: u32,
    // Its FID, CNS or page, if it has one.
    pub choice: Option<u32>,
    // Bytes of data in.
    pub takes: usize,
    // The size of the page that it answers, and whether a part of that is asked, as of a log.
    pub page: usize,
    pub part: bool,
    pub whom: Whom,
    // Whether these rows of the status table look at it: Save; Select; 14h while off; no window of 1 or 2, and too early; a fifth request.
    pub save: bool,
    pub select: bool,
    pub on: bool,
    pub window: bool,
    pub queues: bool,
}

const SIZE: usize = 64;

// Bytes of a dword.
pub(crate) const DWORD: u64 = 4;

// CDW12 2:0 of 14h.
pub(crate) const WINDOW_D: u32 = 1;

pub(crate) const WINDOW_N: u32 = 2;

fn dwords_in(b: &[u8], whole: bool) -> Command
    requires { command_size ≤ length b.now }
    ensures { result ≡ dwords_of whole b.now }
{
    Command {
        whole,
        cdw0: word(b, 0),
        cdw10: word(b, 40),
        cdw11: word(b, 44),
        cdw12: word(b, 48),
        cdw13: word(b, 52),
    }
}

// A command of 64 bytes is read where it lies. One of another length is read as if cut or filled up to 64 bytes, so that no
// test that is made of it can fail.
pub fn command_in(bytes: &[u8]) -> Command
    ensures { result ≡ command_in bytes.now }
{
    if bytes.len() == SIZE {
        return dwords_in(bytes, true);
    }
    let mut b = [0u8; SIZE];
    octets::copy_part(bytes, 0, SIZE, &mut b);
    dwords_in(&b, false)
}

// Bits hi:lo of a dword.
fn bits(hi: u32, lo: u32, x: u32) -> u32
    requires { (lo ≤ hi) × (hi < 32) × (hi - lo < 31) }
    ensures { result ≡ bits hi lo x }
{
    (x >> lo) % (1 << (hi - lo + 1))
}

// Such bits as the number of a set, or of a command.
fn half(hi: u32, lo: u32, x: u32) -> u16
    requires { (lo ≤ hi) × (hi < 32) × (hi - lo < 16) }
    ensures { result ≡ bits hi lo x }
{
    bits(hi, lo, x) as u16
}

pub fn opcode_of(c: Command) -> u32
    ensures { result ≡ opcode c }
{
    bits(7, 0, c.cdw0)
}

pub fn chosen_by(c: Command) -> u32
    ensures { result ≡ chosen c }
{
    bits(7, 0, c.cdw10)
}

pub fn saves(c: Command) -> bool
    ensures { result ≡ save c }
{
    bits(31, 31, c.cdw10) == 1
}

pub fn selected_by(c: Command) -> u32
    ensures { result ≡ select c }
{
    bits(10, 8, c.cdw10)
}

pub fn feature_set(c: Command) -> SetId
    ensures { result.0 ≡ feature_set c }
{
    SetId(half(15, 0, c.cdw11))
}

pub fn enables(c: Command) -> bool
    ensures { result ≡ enable c }
{
    bits(0, 0, c.cdw12) == 1
}

pub fn window_value(c: Command) -> u32
    ensures { result ≡ window_value c }
{
    bits(2, 0, c.cdw12)
}

fn cause_by(d: bool) -> Cause
    ensures { result ≡ cause_by d }
{
    if d { Cause::SelectD } else { Cause::SelectN }
}

// Whether it is D that Set Features 14h selects.
pub fn selects_d(c: Command) -> bool
    ensures { result ≡ selects_d c }
{
    window_value(c) == WINDOW_D
}

pub fn window_cause(c: Command) -> Cause
    ensures { result ≡ window_cause c }
{
    cause_by(selects_d(c))
}

pub fn retains(c: Command) -> bool
    ensures { result ≡ retain c }
{
    bits(15, 15, c.cdw10) == 1
}

pub fn dwords_of(c: Command) -> u64
    ensures { result ≡ dwords c }
{
    let low = u64::from(bits(31, 16, c.cdw10));
    let high = u64::from(bits(15, 0, c.cdw11));
    low + 0x10000 * high + 1
}

pub fn log_set(c: Command) -> SetId
    ensures { result.0 ≡ log_set c }
{
    SetId(half(31, 16, c.cdw11))
}

pub fn offset_of(c: Command) -> u64
    ensures { result ≡ offset c }
{
    u64::from(c.cdw12) + 0x1_0000_0000 * u64::from(c.cdw13)
}

pub fn asked_by(c: Command) -> SetId
    ensures { result.0 ≡ asked c }
{
    SetId(half(15, 0, c.cdw11))
}

pub fn identifier_of(c: Command) -> u16
    ensures { result ≡ identifier c }
{
    half(31, 16, c.cdw0)
}

pub fn turns_on(c: Command) -> bool
    ensures { result ≡ turns_on c }
{
    bits(12, 12, c.cdw11) == 1
}
