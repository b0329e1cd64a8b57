// The commands as one table, and what is read from it.
ghost use Rattle.std.specs.Prelude.{◌≡◌, true, false, MatchOption};
ghost use Rattle.commands.specs.Shapes.{set_feature, get_feature, read_log, identified, requested, shape_of, kind_of, is_named, named_by, needs_in, needs_out};

use crate::{
    Command, DWORD, Kind, Shape, Whom, chosen_by, dwords_of, feature_set, log_set, opcode_of,
};
use pages::aggregate::AGGREGATE_SIZE;
use pages::features::FEATURE_SIZE;
use pages::identify::IDENTIFY_SIZE;
use pages::latency::LATENCY_SIZE;
use record::SetId;

// The document's numbers of opcodes, and of FIDs, log pages and CNS: what a command's bytes hold, whatever its kind.

pub(crate) const LOG: u32 = 0x02;

const IDENTIFY: u32 = 0x06;

const SET: u32 = 0x09;

const GET: u32 = 0x0A;

const REQUEST: u32 = 0x0C;

const NOTICES: u32 = 0x0B;

const CONFIG: u32 = 0x13;

const WINDOW: u32 = 0x14;

const LATENCY: u32 = 0x0A;

const AGGREGATE: u32 = 0x0B;

const SET_LIST: u32 = 0x04;

// No data, no page and no set, and no row of its own in the status table.
const BARE: Shape = Shape {
    opcode: 0,
    choice: None,
    takes: 0,
    page: 0,
    part: false,
    whom: Whom::NoSet,
    save: false,
    select: false,
    on: false,
    window: false,
    queues: false,
};

// Set Features: Save is looked at; so many bytes of data in, or a window.
fn set_feature(fid: u32, takes: usize, whom: Whom, window: bool) -> Shape
    ensures { result ≡ set_feature fid takes whom window }
{
    Shape {
        opcode: SET,
        choice: Some(fid),
        takes,
        whom,
        save: true,
        on: window,
        window,
        ..BARE
    }
}

// Get Features: Select is looked at; a page of that size, or the window, which is none while off.
fn get_feature(fid: u32, page: usize, whom: Whom, window: bool) -> Shape
    ensures { result ≡ get_feature fid page whom window }
{
    Shape {
        opcode: GET,
        choice: Some(fid),
        page,
        whom,
        select: true,
        on: window,
        ..BARE
    }
}

// Get Log Page: a part of a page of that size.
fn read_log(page: u32, size: usize, whom: Whom) -> Shape
    ensures { result ≡ read_log page size whom }
{
    Shape {
        opcode: LOG,
        choice: Some(page),
        page: size,
        part: true,
        whom,
        ..BARE
    }
}

fn identified(cns: u32, size: usize) -> Shape
    ensures { result ≡ identified cns size }
{
    Shape {
        opcode: IDENTIFY,
        choice: Some(cns),
        page: size,
        ..BARE
    }
}

// Asynchronous Event Request: no FID, no data, no page.
fn requested() -> Shape
    ensures { result ≡ requested }
{
    Shape {
        opcode: REQUEST,
        queues: true,
        ..BARE
    }
}

pub fn shape_of(k: Kind) -> Shape
    ensures { result ≡ shape_of k }
{
    match k {
        Kind::SetNotices => set_feature(NOTICES, 0, Whom::NoSet, false),
        Kind::SetConfig => set_feature(CONFIG, FEATURE_SIZE, Whom::FeatureSet, false),
        Kind::SetWindow => set_feature(WINDOW, 0, Whom::FeatureSet, true),
        Kind::GetNotices => get_feature(NOTICES, 0, Whom::NoSet, false),
        Kind::GetConfig => get_feature(CONFIG, FEATURE_SIZE, Whom::FeatureSet, false),
        Kind::GetWindow => get_feature(WINDOW, 0, Whom::FeatureSet, true),
        Kind::ReadLatency => read_log(LATENCY, LATENCY_SIZE, Whom::LogSet),
        Kind::ReadAggregate => read_log(AGGREGATE, AGGREGATE_SIZE, Whom::NoSet),
        Kind::EventRequest => requested(),
        Kind::Identify => identified(SET_LIST, IDENTIFY_SIZE),
    }
}

// By opcode, in two groups, so that three comparisons are enough and no table is looked up; then by FID, CNS or page. The last of an
// opcode stands for one that is not listed.
pub fn kind_of(c: Command) -> Kind
    ensures { result ≡ kind_of c }
{
    let opcode = opcode_of(c);
    let choice = chosen_by(c);
    if opcode < SET {
        if opcode == LOG {
            if choice == LATENCY {
                return Kind::ReadLatency;
            }
            return Kind::ReadAggregate;
        }
        return Kind::Identify;
    }
    if opcode == SET {
        if choice == NOTICES {
            return Kind::SetNotices;
        }
        if choice == CONFIG {
            return Kind::SetConfig;
        }
        return Kind::SetWindow;
    }
    if opcode == GET {
        if choice == NOTICES {
            return Kind::GetNotices;
        }
        if choice == CONFIG {
            return Kind::GetConfig;
        }
        return Kind::GetWindow;
    }
    if opcode == REQUEST {
        return Kind::EventRequest;
    }
    Kind::Identify
}

// The set that a command names, if it names one.
pub fn named_by(k: Kind, c: Command) -> Option<SetId>
    ensures { MatchOption result ((is_named k ≡ false) × (named_by k c ≡ 0)) (λ id. (is_named k ≡ true) × (id.0 ≡ named_by k c)) }
{
    match shape_of(k).whom {
        Whom::NoSet => None,
        Whom::FeatureSet => Some(feature_set(c)),
        Whom::LogSet => Some(log_set(c)),
    }
}

pub fn needs_in(k: Kind) -> usize
    ensures { result ≡ needs_in k }
{
    shape_of(k).takes
}

pub fn needs_out(k: Kind, c: Command) -> u64
    ensures { result ≡ needs_out k c }
{
    let s = shape_of(k);
    if s.part {
        dwords_of(c) * DWORD
    } else {
        s.page as u64
    }
}
