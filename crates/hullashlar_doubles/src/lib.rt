// The ten calls of double arithmetic for C: what a compiler calls where a processor has no double of its own. Each takes the bit patterns
// of two doubles, whatever they are, and refuses nothing; a NaN out is 7FF8000000000000.

#![tactic(auto)]

ghost use Rattle.hullashlar_doubles.specs.DoublesExports.{AddExport, SubExport, MulExport, DivExport, LtExport, LeExport, EqExport};
ghost use Rattle.hullashlar_doubles.specs.DoublesExports.{GtExport, GeExport, UnExport};

// The pattern of a + b.
#[unsafe(no_mangle)]
pub extern "C" fn hullashlar_soft_add(a: u64, b: u64) -> u64
    ensures { AddExport a b result }
{
    doubles_sum::sum(a, b)
}

// The pattern of a - b.
#[unsafe(no_mangle)]
pub extern "C" fn hullashlar_soft_sub(a: u64, b: u64) -> u64
    ensures { SubExport a b result }
{
    doubles_sum::difference(a, b)
}

// The pattern of a * b.
#[unsafe(no_mangle)]
pub extern "C" fn hullashlar_soft_mul(a: u64, b: u64) -> u64
    ensures { MulExport a b result }
{
    doubles_product::product(a, b)
}

// The pattern of a / b.
#[unsafe(no_mangle)]
pub extern "C" fn hullashlar_soft_div(a: u64, b: u64) -> u64
    ensures { DivExport a b result }
{
    doubles_quotient::quotient(a, b)
}

// 1 where a < b, and else 0.
#[unsafe(no_mangle)]
pub extern "C" fn hullashlar_soft_lt(a: u64, b: u64) -> u32
    ensures { LtExport a b result }
{
    if doubles_compared::less(a, b) { 1 } else { 0 }
}

// 1 where a <= b, and else 0.
#[unsafe(no_mangle)]
pub extern "C" fn hullashlar_soft_le(a: u64, b: u64) -> u32
    ensures { LeExport a b result }
{
    if doubles_compared::at_most(a, b) {
        1
    } else {
        0
    }
}

// 1 where a == b, and else 0.
#[unsafe(no_mangle)]
pub extern "C" fn hullashlar_soft_eq(a: u64, b: u64) -> u32
    ensures { EqExport a b result }
{
    if doubles_compared::equal(a, b) { 1 } else { 0 }
}

// 1 where a > b, and else 0.
#[unsafe(no_mangle)]
pub extern "C" fn hullashlar_soft_gt(a: u64, b: u64) -> u32
    ensures { GtExport a b result }
{
    if doubles_compared::less(b, a) { 1 } else { 0 }
}

// 1 where a >= b, and else 0.
#[unsafe(no_mangle)]
pub extern "C" fn hullashlar_soft_ge(a: u64, b: u64) -> u32
    ensures { GeExport a b result }
{
    if doubles_compared::at_most(b, a) {
        1
    } else {
        0
    }
}

// 1 where one of the two is a NaN, and else 0.
#[unsafe(no_mangle)]
pub extern "C" fn hullashlar_soft_un(a: u64, b: u64) -> u32
    ensures { UnExport a b result }
{
    if doubles_compared::unordered(a, b) {
        1
    } else {
        0
    }
}
