//! Readings that a seed determines.

ghost use Rattle.std.specs.Prelude.{◌≡◌, ◌≤◌, length, IfOk};
ghost use Rattle.segment.specs.Measure.{AreReadings};
ghost use Rattle.semantics.specs.Most.{most_readings};
ghost use Rattle.query_cli.specs.Generated.{generated, next_state, reading_of, wave};

use std::alloc::{AllocError, Global};

const MULTIPLIER: u64 = 6_364_136_223_846_793_005;

const INCREMENT: u64 = 1_442_695_040_888_963_407;

/// The readings of a wave that rises and falls again.
const PERIOD: u32 = 1024;

/// The state behind another.
fn next_state(state: u64) -> u64
    ensures { result ≡ next_state state }
{
    state.wrapping_mul(MULTIPLIER).wrapping_add(INCREMENT)
}

/// The wave at a place.
fn wave(i: u32) -> u32
    ensures value { result ≡ wave i }
    ensures bound { result ≤ 512 }
{
    let place = i % PERIOD;
    if place < PERIOD / 2 {
        place
    } else {
        PERIOD - place
    }
}

/// A reading by its place and the state behind its step.
fn reading_of(i: u32, state: u64) -> i32
    ensures value { result ≡ reading_of i state }
{
    let noise = (state >> 56) as u32;
    (10 * wave(i) + noise) as i32 - 128
}

/// The first readings of a seed.
pub(crate) fn generated(alloc: Global, seed: u64, count: u32) -> Result<Vec<i32>, AllocError>
    requires { count ≤ most_readings }
    ensures readings { IfOk result (λ v. v.items ≡ generated seed count) }
    ensures count { IfOk result (λ v. length v.items ≡ count) }
    ensures small { IfOk result (λ v. AreReadings v.items) }
{
    let mut xs = Vec::new(alloc);
    let mut state = seed;
    for i in 0..count {
        state = next_state(state);
        xs.push(reading_of(i, state))?;
    }
    Ok(xs)
}
