// A pause between two tries of a call that would block.
use std::rt::Clock;
use std::thread;
use std::time::Duration;

// How long a pause is, in nanoseconds: a hundredth of a second is nothing to a person, and next to no work for the machine.
const PAUSE: u64 = 10000000;

// Waits for one pause.
pub(crate) fn wait(clock: &impl Clock) {
    thread::sleep(clock, Duration::from_nanos(PAUSE));
}
