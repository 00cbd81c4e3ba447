// Rounding in whole numbers: a word's digits, as many as a double keeps, and a pattern made of them. Nothing here knows a float.

#![tactic(auto)]

ghost use Rattle.std.specs.Prelude.{◌≡◌, ◌+◌, ◌*◌, ◌^◌, ◌<◌, ◌≤◌};
ghost use Rattle.std.specs.Float.{binary64};
ghost use Rattle.std.specs.Float.Ieee.Nearest.{closest};
ghost use Rattle.doubles_patterns.specs.Patterns.{leading, infinity, second_place, capped, pattern};
ghost use Rattle.doubles_rounding.specs.Standing.{StandsFor};
ghost use Rattle.doubles_rounding.specs.Shifted.{Shifted};

// Of t / 2048 the nearest whole number, a tie to the even one.
fn eleven_off(t: u64) -> u64
    ensures { (result ≡ closest t 2048) × (result ≤ 2 * leading) }
{
    let q = t / 2048;
    q + (t % 2048 + q % 2 + 1023) / 2048
}

// The pattern with the exponent k and the digits t / 2048, rounded.
fn packed(t: u64, k: u64) -> u64
    requires { k < 4001 }
    ensures { (result ≡ capped binary64 (k * leading + closest t 2048)) × (result ≤ infinity) }
{
    let p = k * 0x10000000000000 + eleven_off(t);
    p.min(0x7FF0000000000000)
}

// How far s is moved up before its last eleven places are rounded off.
fn shift(s: u64, e: u64) -> u64
    requires { (0 < s) × (e < 4000) }
    ensures { Shifted s e result }
{
    let zeros = u64::leading_zeros(s) as u64;
    zeros.min(e + 1)
}

// The pattern of s * 2 ^ e / 1024 units, rounded.
pub fn rounded(s: u64, e: u64) -> u64
    requires { (0 < s) × (e < 4000) }
    ensures { (result ≡ pattern binary64 (s * 2 ^ e) 1024) × (result ≤ infinity) }
{
    let up = shift(s, e);
    packed(s << up, e + 1 - up)
}

// The same of a number that has its highest digit in one of the two top places of its word, unless the exponent is 0.
pub fn top_rounded(s: u64, e: u64) -> u64
    requires { (0 < e → second_place ≤ s) × (e < 4000) }
    ensures { (result ≡ pattern binary64 (s * 2 ^ e) 1024) × (result ≤ infinity) }
{
    if s < 0x8000000000000000 {
        packed(s * 2, e)
    } else {
        packed(s, e + 1)
    }
}

// x moved down by d places. Where that loses anything, the last place is made odd.
pub fn moved_down(x: u64, d: u64) -> u64
    ensures { StandsFor result x (2 ^ d) }
{
    if d < 64 {
        let kept = x >> d;
        if (kept << d) == x {
            kept
        } else {
            kept / 2 * 2 + 1
        }
    } else if x == 0 {
        0
    } else {
        1
    }
}

// The pattern of r * 2 ^ up / (1024 * 2 ^ down) units, rounded; r has its highest digit in one of the two top places.
pub fn placed(r: u64, up: u64, down: u64) -> u64
    requires { (second_place ≤ r) × (up < 4000 + down) }
    ensures { (result ≡ pattern binary64 (r * 2 ^ up) (1024 * 2 ^ down)) × (result ≤ infinity) }
{
    if down <= up {
        top_rounded(r, up - down)
    } else {
        top_rounded(moved_down(r, down - up), 0)
    }
}
