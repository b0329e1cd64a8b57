// Words as their little-endian bytes, one after another.
ghost use Rattle.std.specs.Prelude.{◌≡◌, ◌+◌, ◌*◌, ◌≤◌, length};
ghost use Rattle.octets.specs.Octets.{number_of, part};
ghost use Rattle.octets.specs.Words.{word_size, words_from, put_words};

use crate::numbers::array_at;

// How many bytes a word has.
pub const WORD: usize = 8;

// The word at a place.
pub fn word_at(bytes: &[u8], at: usize) -> u64
    requires { at + word_size ≤ length bytes.now }
    ensures { result ≡ number_of (part bytes.now at word_size) }
{
    u64::from_le_bytes(array_at(bytes, at))
}

// The words from a place on, as many as are lent.
pub fn words_in(bytes: &[u8], from: usize, words: &mut [u64])
    requires { from + length words.old * word_size ≤ length bytes.now }
    ensures { words.new ≡ words_from bytes.now from (length words.old) }
{
    for (i, word) in words.iter_mut().enumerate() {
        *word = word_at(bytes, from + i * WORD);
    }
}

// The words' bytes, put from a place on.
pub fn words_out(words: &[u64], bytes: &mut [u8], from: usize)
    requires { from + length words.now * word_size ≤ length bytes.old }
    ensures { bytes.new ≡ put_words bytes.old from words.now }
{
    for (i, word) in words.iter().enumerate() {
        crate::put(bytes, from + i * WORD, WORD, *word);
    }
}
