//! One counter of a score, with a floor of 10,000.
ghost use Rattle.std.specs.Prelude.{◌≤◌, ◌^◌};

use gs_score::{Counter, Decay};

/// What is done to a counter.
enum Call {
    /// Raised by an amount, up to a cap.
    Raise(u64, u64),
    /// This many steps of decay.
    Steps(u64),
}

/// A counter, what is done to it, and what it is then.
struct Case {
    name: &'static str,
    factor: u64,
    calls: &'static [Call],
    /// The kept value, and the number of decays up to which it was decayed.
    stored: (u64, u64),
    read: u64,
}

const CAP: u64 = 100_000_000;

const ONE: Call = Call::Raise(1_000_000, CAP);

/// A counter that is raised once, and what is read after these numbers of steps.
struct Fading {
    name: &'static str,
    factor: u64,
    raised: u64,
    reads: &'static [(u64, u64)],
}

static FADING: [Fading; 8] = [
    // Seven steps leave 7,812, which is below the floor.
    Fading {
        name: "a half",
        factor: 500_000,
        raised: 1_000_000,
        reads: &[(3, 125_000), (6, 15_625), (7, 0), (1 << 63, 0)],
    },
    Fading {
        name: "a step down to the floor",
        factor: 500_000,
        raised: 20_000,
        reads: &[(1, 10_000)],
    },
    Fading {
        name: "a step below the floor",
        factor: 500_000,
        raised: 19_999,
        reads: &[(1, 0)],
    },
    // No step is made where one changes nothing.
    Fading {
        name: "a factor of one",
        factor: 1_000_000,
        raised: 1_000_000,
        reads: &[(100_000, 1_000_000)],
    },
    // Each step takes a millionth, rounded up: 1 of up to 1,000,000, and 5 of more than 4,000,000 and up to 5,000,000.
    Fading {
        name: "a factor of almost one",
        factor: 999_999,
        raised: 1_000_000,
        reads: &[(100_000, 900_000), (990_000, 10_000), (990_001, 0)],
    },
    Fading {
        name: "five, by a factor of almost one",
        factor: 999_999,
        raised: 5_000_000,
        reads: &[(200_000, 4_000_000), (200_001, 3_999_996)],
    },
    // 50 steps of 20, then steps of 19.
    Fading {
        name: "a thousandth",
        factor: 999_000,
        raised: 20_000,
        reads: &[(50, 19_000), (60, 18_810)],
    },
    // The tenth step would leave 9,990, which is below the floor.
    Fading {
        name: "steps of eleven",
        factor: 999_000,
        raised: 10_100,
        reads: &[(9, 10_001), (10, 0)],
    },
];

static CASES: [Case; 5] = [
    Case {
        name: "nothing",
        factor: 500_000,
        calls: &[],
        stored: (0, 0),
        read: 0,
    },
    Case {
        name: "three steps, and a raise",
        factor: 500_000,
        calls: &[ONE, Call::Steps(3), ONE],
        stored: (1_125_000, 3),
        read: 1_125_000,
    },
    Case {
        name: "five, and a raise",
        factor: 999_999,
        calls: &[Call::Raise(5_000_000, CAP), Call::Steps(300_000), ONE],
        stored: (4_600_000, 300_000),
        read: 4_600_000,
    },
    // The cap holds for the sum.
    Case {
        name: "the cap of a sum",
        factor: 500_000,
        calls: &[ONE, Call::Raise(1_000_000, 1_500_000)],
        stored: (1_500_000, 0),
        read: 1_500_000,
    },
    Case {
        name: "the greatest cap",
        factor: 0,
        calls: &[ONE, Call::Raise(1 << 63, 1_000_000_000_000)],
        stored: (1_000_000_000_000, 0),
        read: 1_000_000_000_000,
    },
];

/// A way to decay, with the floor of these tests.
fn decay(factor: u64) -> Decay
    ensures { result.factor ≤ 10 ^ 6 }
{
    Decay {
        factor: factor.min(1_000_000),
        floor: 10_000,
    }
}

/// Does to a counter after these decays what is to be done, and gives the number of decays then.
fn perform(counter: &mut Counter, decay: Decay, decays: u64, call: &Call) -> u64
    requires { decay.factor ≤ 10 ^ 6 }
{
    match call {
        Call::Raise(by, cap) => {
            counter.raise(*by, (*cap).min(1_000_000_000_000), decay, decays);
            decays
        }
        Call::Steps(steps) => decays.saturating_add(*steps),
    }
}

/// Says whether the counter, to which all was done, is read and stored as the case says.
fn holds(case: &Case) -> bool {
    let decay = decay(case.factor);
    let mut counter = Counter::new();
    let mut decays = 0;
    for step in case.calls {
        decays = perform(&mut counter, decay, decays, step);
    }
    let read = counter.read(decay, decays);
    counter.stored() == case.stored && read == case.read
}

/// Says whether the counter is read as the row says, and stays stored as it was raised.
fn fades(row: &Fading) -> bool {
    let decay = decay(row.factor);
    let mut counter = Counter::new();
    counter.raise(row.raised.min(CAP), CAP, decay, 0);
    for (steps, read) in row.reads {
        if counter.read(decay, *steps) != *read || counter.stored() != (row.raised, 0) {
            return false;
        }
    }
    true
}

#[test]
fn counters_decay_where_they_are_looked_at(rt: HostRuntime) {
    for case in &CASES {
        assert!(rt; holds(case), "{}", case.name);
    }
    for row in &FADING {
        assert!(rt; fades(row), "{}", row.name);
    }
}
