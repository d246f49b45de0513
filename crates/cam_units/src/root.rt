//! Integer roots.

ghost use Rattle.std.specs.Prelude.{◌+◌, ◌*◌, ◌^◌, ◌<◌, ◌≤◌, IsTrue};

use std::num::{nearest_u64_to_f64, saturating_f64_to_u64};

/// What the upper half of 128 bits is worth: 2^64.
const UPPER_HALF: f64 = 18_446_744_073_709_551_616.0;

/// The greatest number whose square is at most `n`.
///
/// It is nearly always that of the nearest float, or one less than that, where this was rounded up: these are tried. Else
/// it is found by Newton's method, from a power of two above it: about six divisions, of 64 bits where `n` fits them.
pub fn isqrt(n: u128) -> u64
    ensures square { result * result ≤ n }
    ensures greatest { n < (result + 1) * (result + 1) }
{
    let upper = nearest_u64_to_f64((n >> 64) as u64);
    let lower = nearest_u64_to_f64((n % 0x1_0000_0000_0000_0000) as u64);
    let near = saturating_f64_to_u64((upper * UPPER_HALF + lower).sqrt());
    if is_root(near, n) {
        return near;
    }
    let below = near.saturating_sub(1);
    if is_root(below, n) {
        return below;
    }
    if n < 0x1_0000_0000_0000_0000 {
        return short_root(n as u64);
    }
    long_root(n) as u64
}

/// Whether a number is the root of another one.
#[inline]
fn is_root(root: u64, n: u128) -> bool
    ensures square { IsTrue result → root * root ≤ n }
    ensures greatest { IsTrue result → n < (root + 1) * (root + 1) }
{
    let square = u128::from(root) * u128::from(root);
    square <= n && n - square <= 2 * u128::from(root)
}

/// The root of a number of 64 bits.
fn short_root(n: u64) -> u64
    ensures square { result * result ≤ n }
    ensures greatest { n < (result + 1) * (result + 1) }
{
    if n == 0 {
        return 0;
    }
    let mut root = 1u64 << (n.ilog2() / 2 + 1);
    let mut quotient = n / root;
    while quotient < root {
        root = (root + quotient) / 2;
        quotient = n / root;
    }
    root
}

/// The root of a number of 128 bits.
fn long_root(n: u128) -> u128
    requires { 0 < n }
    ensures square { result * result ≤ n }
    ensures greatest { n < (result + 1) * (result + 1) }
    ensures short { result < 2 ^ 64 }
{
    let mut root = 1u128 << (n.ilog2() / 2 + 1);
    let mut quotient = n / root;
    while quotient < root {
        root = (root + quotient) / 2;
        quotient = n / root;
    }
    root
}
