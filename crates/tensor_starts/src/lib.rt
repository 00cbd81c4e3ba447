// Which lanes a pass along an axis has: how many they are, where each starts, and how they are walked by adding strides. The lanes are the
// whole of them, or those that agree with a place on every axis outside the target, a mask. None of these is a public call.

#![tactic(auto)]

ghost use Rattle.std.specs.Prelude.{◌≡◌, ◌<◌, ◌≤◌};
ghost use Rattle.rules.specs.Sizes.{place_of, moved};
ghost use Rattle.grid.specs.GridOfCall.{points_of};
ghost use Rattle.tensor_starts.specs.Starts.{varies};
ghost use Rattle.tensor_starts.specs.Walks.{Small, on_one_more, LanesGiven, Walks};

use rules::Axis;

pub mod walking;

// How the lanes of a pass are walked: how many they are, where the first starts, and how they lie. They go through all indices of three
// axes at most, the last of them fastest: `inner` and `middle` are the points of the last and of the one before it, 1 where there is none,
// and two lanes that are neighbours on the last, the one before or the one before that start `near`, `far` or `farthest` apart.
#[derive(Clone, Copy)]
pub struct Walk {
    pub lanes: usize,
    pub start: usize,
    pub inner: usize,
    pub middle: usize,
    pub near: usize,
    pub far: usize,
    pub farthest: usize,
}

// Where a walk stands: the number of the lane and where it starts, its indices on the last two axes that the lanes go through, and where
// the lanes start that have index 0 on the last (`run`) and on both (`slab`).
#[derive(Clone, Copy)]
pub struct Cursor {
    pub lane: usize,
    pub at: usize,
    pub inner: usize,
    pub middle: usize,
    pub run: usize,
    pub slab: usize,
}

// Whether the lanes along `axis` go through all indices on axis j: on one that is free, but not on their own.
fn varies(whole: bool, target: usize, axis: usize, j: usize) -> bool
    requires { j < 4 }
    ensures { result ≡ varies whole target axis j }
{
    j != axis && (whole || grid::in_mask(target, j))
}

// The index on axis j that lanes along `axis` start at where they go through no others: the place's, and 0 on their own axis.
fn start_index(place: [usize; 4], axis: usize, j: usize) -> usize
    requires { j < 4 }
    ensures { result ≡ moved (place_of place) axis 0 j }
{
    if j == axis {
        return 0;
    }
    place[j]
}

// The walk with one axis more, of n points, whose index is the fastest: through all of them, or at one index.
fn on_one_more(walk: Walk, n: usize, through: bool, index: usize) -> Walk
    requires { Small walk × (n ≤ 256) × (index ≤ 256) }
    ensures { result ≡ on_one_more walk n through index }
{
    if through {
        return Walk {
            lanes: walk.lanes * n,
            start: walk.start * n,
            inner: n,
            middle: walk.inner,
            near: 1,
            far: walk.near * n,
            farthest: walk.far * n,
        };
    }
    Walk {
        lanes: walk.lanes,
        start: walk.start * n + index,
        inner: walk.inner,
        middle: walk.middle,
        near: walk.near * n,
        far: walk.far * n,
        farthest: walk.farthest * n,
    }
}

// The walk over the numbers at a mask where the lanes along `axis` start. All masks of a place lie side by side, as one axis more would. It
// requires axes whose places are no more than a tensor's numbers, a place on them, and one of their masks.
pub fn walk_over(
    axes: usize,
    all: [Axis; 4],
    place: [usize; 4],
    whole: bool,
    target: usize,
    axis: usize,
    mask: usize,
) -> Walk
    requires { LanesGiven axes (points_of all) (place_of place) axis mask }
    ensures { Walks (points_of all) axes (varies whole target axis) (moved (place_of place) axis 0) mask result }
{
    let mut walk = Walk {
        lanes: 1,
        start: 0,
        inner: 1,
        middle: 1,
        near: 0,
        far: 0,
        farthest: 0,
    };
    for j in 0..axes {
        let entry = all[j];
        let through = varies(whole, target, axis, j);
        let index = start_index(place, axis, j);
        walk = on_one_more(walk, entry.points, through, index);
    }
    on_one_more(walk, grid::masks(axes), false, mask)
}
