// Words in a run of cells: each cell a word, or a byte of one.
ghost use Rattle.std.specs.Prelude.{◌≡◌, List, [], ℕ, ◌+◌, ◌*◌, ◌/◌, ◌<◌, ◌≤◌, length, drop, get_or};
ghost use Rattle.std.proofs.Common.{arith};
ghost use Rattle.std.proofs.lemmas.List.Edits.{sets};
ghost use Rattle.octets.specs.Octets.{part};
ghost use Rattle.octets.specs.Words.{word_size, words_from, words_few};

use crate::words::{WORD, word_at, words_in, words_out};

// What a lent table may be made of.
pub trait Cell: Copy {
    // The words that stand in a run of cells, and the cells after the last whole word, which nothing changes.
    ghost words: { List Self → List ℕ };

    ghost rest: { List Self → List Self };

    // How many words there are.
    fn room(cells: &[Self]) -> usize
        ensures { result ≡ length (words cells.now) };

    fn word(cells: &[Self], k: usize) -> u64
        requires { k < length (words cells.now) }
        ensures { result ≡ get_or (words cells.now) k 0 };

    // A run of words from place k on, as many as are lent.
    fn read(cells: &[Self], k: usize, to: &mut [u64])
        requires { k + length to.old ≤ length (words cells.now) }
        ensures { to.new ≡ part (words cells.now) k (length to.old) };

    // A run of words put from place k on.
    fn write(cells: &mut [Self], k: usize, run: &[u64])
        requires { k + length run.now ≤ length (words cells.old) }
        ensures words { words cells.new ≡ sets (words cells.old) k run.now }
        ensures rest { rest cells.new ≡ rest cells.old };

    // A cell holds a word at most, so that the place of each is a usize.
    ghost fits: { (cells : List Self) → length (words cells) ≤ length cells };
}

impl Cell for u64 {
    ghost words = { λ cells. cells };

    ghost rest = { λ cells. [] };

    ghost fits = { λ cells. Prim.omega arith };

    fn room(cells: &[u64]) -> usize {
        cells.len()
    }

    fn word(cells: &[u64], k: usize) -> u64 {
        cells[k]
    }

    fn read(cells: &[u64], k: usize, to: &mut [u64]) {
        let end = k + to.len();
        to.copy_from_slice(&cells[k..end]);
    }

    fn write(cells: &mut [u64], k: usize, run: &[u64]) {
        let end = k + run.len();
        cells[k..end].copy_from_slice(run);
    }
}

// 01: "there the table passes as its words' little-endian bytes". Of a length that is no multiple of 8 the whole words count.
impl Cell for u8 {
    ghost words = { λ cells. words_from cells 0 (length cells / word_size) };

    ghost rest = { λ cells. drop (length cells / word_size * word_size) cells };

    ghost fits = { words_few };

    fn room(cells: &[u8]) -> usize {
        cells.len() / WORD
    }

    fn word(cells: &[u8], k: usize) -> u64 {
        word_at(cells, WORD * k)
    }

    fn read(cells: &[u8], k: usize, to: &mut [u64]) {
        words_in(cells, WORD * k, to);
    }

    fn write(cells: &mut [u8], k: usize, run: &[u64]) {
        words_out(run, cells, WORD * k);
    }
}
