//! The columns of a file.
ghost use Rattle.std.specs.Prelude.{◌≡◌, ◌≤◌, true, take};
ghost use Rattle.lines.specs.Names.{all_different};

use crate::column::Column;

/// The columns of a file, in their order, no two of them the same.
#[derive(Clone, Copy)]
pub struct Columns {
    // The first `count` are the file's. Eight fixed places, since columns are `Copy`, and a vector of fixed room is not.
    pub(crate) names: [Column; 8],
    pub(crate) count: usize,
    ghost few: { count ≤ 8 },
    ghost distinct: { all_different (take count names) ≡ true },
}
