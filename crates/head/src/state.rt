ghost use Rattle.std.specs.Prelude.{◌≡◌, length};

use lines::Lines;
use station::Record;

// Up to 32 stations behind one connection: their lines, which never change, and beside them the records that do.
#[derive(Clone, Copy)]
pub struct Head {
    pub(crate) lines: Lines,
    pub(crate) records: [Record; 32],
    ghost long: { length records ≡ 32 },
}
