ghost use Rattle.std.specs.Prelude.{◌≡◌, ◌≤◌, true, length, take};
ghost use Rattle.lines.specs.Rules.{sound};

use station::StationLine;

// The lines of a head, written whole when they are made. In every value they are 1 to 32 lines of stations with distinct
// addresses and windows that lie in the memory and share no byte.
#[derive(Clone, Copy)]
pub struct Lines {
    pub(crate) lines: [StationLine; 32],
    pub(crate) count: usize,
    pub(crate) memory: usize,
    ghost long: { length lines ≡ 32 },
    ghost few: { count ≤ 32 },
    ghost right: { sound memory (take count lines) ≡ true },
}
