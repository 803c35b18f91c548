ghost use Rattle.std.specs.Prelude.{◌≡◌, ◌≤◌, length};
ghost use Rattle.arrayvec.specs.ArrayVec.{array_vec_len};
ghost use Rattle.of_debug.specs.Marks.{without};

use arrayvec::ArrayVec;
use of_steps::Mark;

/// How many items are marked at most.
pub(crate) const MOST_MARKS: usize = 16;

/// The marked items, those that were marked first first.
pub(crate) type Marks = ArrayVec<Mark, MOST_MARKS>;

/// The marks but that of an item.
pub(crate) fn without(mark: Mark, marks: &[Mark]) -> Marks
    requires few { length marks.now ≤ 16 }
    ensures { result.items ≡ without mark marks.now }
{
    let mut kept = ArrayVec::new();
    for other in marks {
        if !mark.is_same(*other) {
            kept.push(*other);
        }
    }
    kept
}
