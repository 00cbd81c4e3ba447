// The layout of the scratch: eight rows of 256 numbers, and behind them the working tensor. A lane of at most 256 numbers is solved in the
// rows, one lane after the other; nothing in them outlives its lane, and a call clears all of its scratch before it returns. Lanes that are
// solved by four have the rows laid out otherwise: the second picture.
//
//   begins   row       what stands there                           written by                             read until
//        0             the lane's numbers, one for each knot       tensor_lane::gather, axis_curve        its slopes are stored
//      256   SUB       number k - 1: left of the diagonal, row k   axis_rows                              the solve has gone forth
//      512   DIAG      the diagonal                                axis_rows, axis_solve::cyclic_thomas   the solve has gone forth
//      768   SUP       right of the diagonal                       axis_rows                              the solve has gone forth
//     1024   RHS       the right side                              axis_rows, axis_solve::cyclic_thomas   the solve has gone forth
//     1280   CP        the first helper row                        axis_solve::eliminate                  the way back has passed it
//     1536   Z         in a cyclic solve alone: z, its second      axis_solve::thomas                     y and z are one
//                      helper row first. Else free
//     1792   MOMENTS   the second helper row, then the result      axis_solve::thomas, axis_moments       its slopes are stored
//                      over it: the moments; y of the cyclic
//     2048   TENSOR    the working tensor, the mask fastest        tensor, tensor_lane::store_slopes      the call ends

#![tactic(auto)]

// How many numbers all rows have together: the scratch that is asked for beside the tensor's length.
pub const ROWS: usize = 2048;

// Where each row begins; the lane's numbers stand in front of all. SUB_BEFORE + k is number k - 1 of SUB, which row k has left of its
// diagonal.
pub const SUB: usize = 256;

pub const SUB_BEFORE: usize = 255;

pub const DIAG: usize = 512;

pub const SUP: usize = 768;

pub const RHS: usize = 1024;

pub const CP: usize = 1280;

pub const Z: usize = 1536;

pub const MOMENTS: usize = 1792;

// Where the working tensor begins.
pub const TENSOR: usize = 2048;

// By four: the plan of an axis has a row of 128 numbers for each of its parts and outlives its lanes, for it serves all of them. Behind it
// stand two blocks, in which row k has four numbers, those of four lanes at knot k.
//
//   begins   row            what stands there                          written by                  read until
//        0                  the steps of the axis                      tensor_plan                 its last lane is solved
//      128   DIVISORS       what each row is divided by                tensor_plan                 its last lane is solved
//      256   HELPERS        the first helper row                       tensor_plan                 its last lane is solved
//      384   SECOND         of a periodic axis z, the second solve.    tensor_plan                 its last lane is solved
//                           Else free
//     1024   FOUR_SLOPES    the slopes of the lanes' steps, then       tensor_four_lanes           the next four lanes
//                           their knot slopes
//     1536   FOUR_MOMENTS   the second helper rows, then the moments   tensor_four_lanes           the next four lanes
//                           over them
//     2048   TENSOR         the working tensor                         tensor, tensor_four_lanes   the call ends

// Where the rows of a plan begin; the steps stand in front of all.
pub const DIVISORS: usize = 128;

pub const HELPERS: usize = 256;

pub const SECOND: usize = 384;

// Where the two blocks of rows of four begin.
pub const FOUR_SLOPES: usize = 1024;

pub const FOUR_MOMENTS: usize = 1536;
