// A replay file's items, played on a table, and the lines of its printout.
#![tactic(auto)]

pub mod items;
pub mod lines;
pub mod pieces;
pub mod text;

// What stands next on the tape: a whole body, one that is not all read yet, one that is cut or of no known kind, or nothing more.
#[derive(Clone, Copy)]
pub enum Next {
    Whole,
    Short,
    Bad,
    Over,
}

// Where a tape is: at its sets, at its items, or past its last line.
#[derive(Clone, Copy)]
pub enum Stage {
    Sets,
    Items,
    Ended,
}

// How far a tape is, and what a call has done of it.
#[derive(Clone, Copy)]
pub struct Progress {
    pub stage: Stage,
    // sets read, or items done
    pub count: u64,
    // bytes of the piece that are used
    pub used: usize,
    // bytes of text that are written
    pub len: usize,
    // whether it can go on with what it has: a flag, since `turns` of specs/Pieces.antt, of which `Printed` speaks, tests it
    pub going: bool,
}
