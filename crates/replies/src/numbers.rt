// The status numbers: type x 256 + code. What is carried out has a number too; each refusal is a value of its own.
ghost use Rattle.std.specs.Prelude.{◌≡◌};
ghost use Rattle.replies.specs.Numbers.{number};

use crate::Refusal;

pub const SUCCESS: u16 = 0x0000;

pub const REQUEST_WAITS: u16 = 0x07C8;

impl From<Refusal> for u16 {
    ghost from_gives = { λ r n. n ≡ number r };

    fn from(r: Refusal) -> u16 {
        r as u16
    }
}
