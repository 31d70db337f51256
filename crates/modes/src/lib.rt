// The job length of a speed.
#![tactic(auto)]

ghost use Rattle.std.specs.Prelude.{◌≡◌, take, drop};
ghost use Rattle.modes.specs.Modes.{first_length, length_in, job_length};

use fields::units::{Rpm, Ticks};
use fields::values::{Mode, Sheet};

// The length of the slowest of `count` modes that reaches the speed, or in the band above its fall-back the next mode's where that is longer;
// 0 where no mode reaches the speed. A boundary is still reached.
pub fn job_length(modes: [Mode; Sheet::MODES], count: usize, speed: Rpm) -> Ticks
    ensures { result ≡ job_length (take count modes) speed }
{
    for number in 0..count.min(Sheet::MODES) {
        let mode = modes[number];
        if speed <= mode.boundary {
            let next = length_of(modes, count, number + 1);
            return length_in(mode, next, speed);
        }
    }
    Ticks(0)
}

// The length of the mode of a number, 0 past the last.
fn length_of(modes: [Mode; Sheet::MODES], count: usize, number: usize) -> Ticks
    ensures { result ≡ first_length (drop number (take count modes)) }
{
    if count.min(Sheet::MODES) <= number {
        return Ticks(0);
    }
    modes[number].length
}

// The length of a mode that reaches the speed: above its fall-back the next mode's where that is longer.
fn length_in(mode: Mode, next: Ticks, speed: Rpm) -> Ticks
    ensures { result ≡ length_in mode next speed }
{
    if speed <= mode.fallback {
        return mode.length;
    }
    mode.length.max(next)
}
