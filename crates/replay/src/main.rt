// Reads a replay file, the one that its argument names or standard input, and prints what the card answers. Here bytes are moved and no
// more: what is printed is `tape::pieces::play_on`'s, and so the file's printout, whatever the pieces are in which it is read.
#![tactic(auto)]

mod feed;

ghost use Rattle.std.specs.Prelude.{◌≡◌, true, ◌^◌, ◌<◌, IfSome, length};
ghost use Rattle.std.specs.Io.KnownBytes.{Appends};
ghost use Rattle.tape.specs.Printout.{printout};
ghost use Rattle.tape.specs.declared.Stage.TheVariants.{Ended};

use crate::feed::Feed;
use std::env::FillError;
use std::io::{Read, Write};
use std::rt::{Env, Files};
use std::{fs, io, str};
use table::MAX_SETS;
use table::layout::{HEADER, ROW};
use tape::Stage;
use tape::pieces::{BODIES, at_start, play_on};

// The words of as many sets as a card can have.
const WORDS: usize = HEADER + MAX_SETS * ROW;

// Of what is read and of what is written. More than the longest item and the longest line have, so that each call moves on.
const SIZE: usize = 65536;

// No longer name can be opened.
const NAME: usize = 4096;

// What is read.
#[derive(Drop)]
enum Source<F, I> {
    Named(F),
    Standard(I),
}

impl<F: Read, I: Read> Read for Source<F, I> {
    fn read(&mut self, buf: &mut [u8]) -> io::Result<usize> {
        match self {
            Source::Named(file) => file.read(buf),
            Source::Standard(input) => input.read(buf),
        }
    }
}

// What to read from, or nothing where the file cannot be opened, which is said on standard error.
fn input<R: Env + Files + Input + Eprint>(rt: &R) -> Option<Source<R::File, R::Reader>> {
    let mut path = [0u8; NAME];
    match rt.arg(1, &mut path) {
        Ok(n) => named(rt, &path[..n]),
        Err(FillError::NotPresent) => Some(Source::Standard(rt.reader())),
        Err(FillError::TooLong) => {
            let _ = eprintln!(rt; "file name: File name too long");
            None
        }
    }
}

fn named<R: Files + Input + Eprint>(rt: &R, path: &[u8]) -> Option<Source<R::File, R::Reader>> {
    let Ok(path) = str::from_utf8(path) else {
        let _ = eprintln!(rt; "file name: not UTF-8");
        return None;
    };
    match fs::open(rt, path) {
        Ok(file) => Some(Source::Named(file)),
        Err(error) => {
            let _ = eprintln!(rt; "{path}: {error}");
            None
        }
    }
}

// Whether a whole tape was read and all its text written, which is then its printout: a bool, since what goes wrong is said here. A
// read or a write that fails is said on standard error. A proved loop has to end, and nothing says that a file does: so it takes no
// more turns than a number that no run uses up.
fn replay<R: Read, W: Write>(rt: &impl Eprint, from: &mut R, to: &mut W) -> bool
    ensures { result ≡ true → IfSome (R.remaining from.old)
        (λ file. length file < 2 ^ 64 → Appends (W.contents to.old) (W.contents to.new) (printout file)) }
{
    let mut buf = [0u8; SIZE];
    let mut out = [0u8; SIZE];
    let mut bodies = [0u8; BODIES];
    let mut table = [0u64; WORDS];
    let mut p = at_start();
    let mut feed = Feed {
        have: 0,
        last: false,
    };
    let mut wrote = true;
    for _ in 0..u64::MAX {
        if let Err(error) = feed.fill(from, &mut buf) {
            let _ = eprintln!(rt; "read: {error}");
            return false;
        }
        p = play_on(
            &mut table,
            &mut bodies,
            &mut out,
            &buf[..feed.have],
            feed.last,
            p,
        );
        if let Err(error) = to.write_all(&out[..p.len]) {
            let _ = eprintln!(rt; "write: {error}");
            wrote = false;
        }
        if matches!(p.stage, Stage::Ended) {
            return wrote;
        }
        feed.let_go(&mut buf, p.used);
    }
    false
}

fn main(rt: HostRuntime) {
    if let Some(mut from) = input(&rt) {
        replay(&rt, &mut from, &mut io::writer(&rt));
    }
}
