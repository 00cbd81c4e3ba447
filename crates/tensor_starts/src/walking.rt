// A walk over lanes, from the first on. None of these is a public call.
ghost use Rattle.std.specs.Prelude.{◌≡◌, ◌+◌, ◌<◌, ◌≤◌};
ghost use Rattle.tensor_starts.specs.Walks.{Small, Stands};

use crate::{Cursor, Walk};

// The walk at its first lane.
pub fn first(walk: Walk) -> Cursor
    requires { (0 < walk.inner) × (0 < walk.middle) }
    ensures { (result.lane ≡ 0) × Stands result walk }
{
    Cursor {
        lane: 0,
        at: walk.start,
        inner: 0,
        middle: 0,
        run: walk.start,
        slab: walk.start,
    }
}

// The walk at its next lane, or behind its last.
pub fn next(cursor: Cursor, walk: Walk) -> Cursor
    requires { Stands cursor walk × Small walk × (cursor.lane ≤ 4096) × (cursor.at ≤ 4096) }
    ensures { (result.lane ≡ cursor.lane + 1) × Stands result walk }
{
    let lane = cursor.lane + 1;
    let inner = cursor.inner + 1;
    if inner < walk.inner {
        return Cursor {
            lane,
            at: cursor.at + walk.near,
            inner,
            middle: cursor.middle,
            run: cursor.run,
            slab: cursor.slab,
        };
    }
    let middle = cursor.middle + 1;
    if middle < walk.middle {
        let run = cursor.run + walk.far;
        return Cursor {
            lane,
            at: run,
            inner: 0,
            middle,
            run,
            slab: cursor.slab,
        };
    }
    let slab = cursor.slab + walk.farthest;
    Cursor {
        lane,
        at: slab,
        inner: 0,
        middle: 0,
        run: slab,
        slab,
    }
}
