// The window changes: one constant table, three windows by seven causes.
ghost use Rattle.std.specs.Prelude.{◌≡◌};
ghost use Rattle.rules.specs.Changes.{next, moved_by, refused_by};

use crate::Cause;
use crate::Next::{self, Never, Refuse, To};
use record::Window::{self, D, N, Off};

// Rows: off, D, N. Columns: enable, disable, select D, select N, excursion, exceeded, time up.
const CHANGES: [[Next; 7]; 3] = [
    [To(N), To(Off), Refuse, Refuse, To(Off), Never, Never],
    [To(N), To(Off), To(D), To(N), To(N), To(N), To(N)],
    [To(N), To(Off), To(D), To(N), To(N), Never, Never],
];

fn entry(w: Window, c: Cause) -> Next
    ensures { result ≡ next w c }
{
    CHANGES[w as usize][c as usize]
}

// The window after a cause; where the table refuses, and where the cause never arises, the one held.
pub fn moved(w: Window, c: Cause) -> Window
    ensures { result ≡ moved_by w c }
{
    match entry(w, c) {
        Never | Refuse => w,
        To(v) => v,
    }
}

pub fn refuses(w: Window, c: Cause) -> bool
    ensures { result ≡ refused_by w c }
{
    matches!(entry(w, c), Refuse)
}
