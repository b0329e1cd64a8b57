// A window's number, and the window of a number.
ghost use Rattle.std.specs.Prelude.{◌≡◌, ◌<◌};
ghost use Rattle.record.specs.Windows.{window_no, window_of};

use crate::Window;

impl From<Window> for u64 {
    ghost from_gives = { λ w n. (n ≡ window_no w) × (n < 3) };

    fn from(w: Window) -> u64 {
        w as u64
    }
}

// A number that stands for no window.
#[derive(Clone, Copy)]
pub struct NoWindow;

impl TryFrom<u64> for Window {
    type Error = NoWindow;

    ghost try_from_gives = { λ n r. r ≡ window_of n };

    fn try_from(n: u64) -> Result<Window, NoWindow> {
        match n {
            0 => Ok(Window::Off),
            1 => Ok(Window::D),
            2 => Ok(Window::N),
            _ => Err(NoWindow),
        }
    }
}
