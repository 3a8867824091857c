ghost use Rattle.std.specs.Prelude.{◌≡◌, ◌^◌, ◌<◌, length, sum_by};
ghost use Rattle.agglo_model.specs.Finer.{coarsened, first_joined};

use chunk_run::LevelCount;

/// The levels of a cutting, from those of a finer one that has so many levels more.
pub(crate) fn coarsen(levels: Vec<LevelCount>, more: u32) -> Vec<LevelCount>
    requires there { more < length levels.items }
    requires few { sum_by (λ level. level.merges) levels.items < 2 ^ 32 }
    ensures { result.items ≡ coarsened more levels.items }
{
    let mut levels = levels;
    for _ in 0..more {
        join_first(&mut levels);
    }
    levels
}

/// Makes one level of the first two: the nodes of the second, with the merges of both.
fn join_first(levels: &mut Vec<LevelCount>)
    requires there { 1 < length levels.old.items }
    requires few { sum_by (λ level. level.merges) levels.old.items < 2 ^ 32 }
    ensures { levels.new.items ≡ first_joined levels.old.items }
{
    let low = levels.remove(0);
    levels[0].merges += low.merges;
}
