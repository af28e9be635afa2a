//! A counter that decays. The steps of decay are applied only when it is read or raised.
ghost use Rattle.std.specs.Prelude.{◌≡◌, ◌≤◌, ◌<◌, ◌^◌};
ghost use Rattle.gs_score.specs.Counters.{decay_step, decayed, raised, read_at};
ghost use Rattle.gs_score.specs.Histories.{capped_deficit};

use crate::millionths::scaled;
use std::marker::Model;

/// The most that a counter holds, in millionths.
pub const MOST_COUNTED: u64 = 1_000_000_000_000;

/// How a counter decays (gossipsub v1.1, Peer Scoring, Parameter Decay).
#[derive(Clone, Copy, Debug, PartialEq, Eq)]
pub struct Decay {
    /// What a step of decay leaves of the counter, in millionths: 0 to 1,000,000.
    pub factor: u64,
    /// If a step leaves less than this, in millionths, the counter becomes 0.
    pub floor: u64,
}

impl Decay {
    fn step(self, value: u64) -> u64
        requires factor { self.factor ≤ 10 ^ 6 }
        requires value { value ≤ 10 ^ 12 }
        ensures value { result ≡ decay_step self value }
        ensures falls { result ≤ value }
    {
        let left = scaled(self.factor, value);
        if left < self.floor {
            return 0;
        }
        left
    }

    /// Returns what this many steps leave of a value. It stops when a step changes nothing, or leaves 0. It applies steps
    /// in a row together if they take the same amount. So the cost depends on how many different amounts the steps take,
    /// and not on their number.
    fn after(self, value: u64, steps: u64) -> u64
        requires factor { self.factor ≤ 10 ^ 6 }
        requires value { value ≤ 10 ^ 12 }
        ensures value { result ≡ decayed self steps value }
        ensures falls { result ≤ value }
    {
        let mut held = value;
        let mut left = steps;
        while 0 < left {
            let next = self.step(held);
            if next == held {
                return held;
            }
            if next == 0 {
                return 0;
            }
            let (taken, rest) = self.stride(held, next, left);
            held = rest;
            left -= taken;
        }
        held
    }

    /// Returns a number of next steps that all take the same amount, at most `most`, and what they leave of the value. It
    /// returns only the next step where looking for more would cost more.
    fn stride(self, value: u64, next: u64, most: u64) -> (u64, u64)
        requires factor { self.factor ≤ 10 ^ 6 }
        requires value { value ≤ 10 ^ 12 }
        requires next { next ≡ decay_step self value }
        requires some { 0 < next }
        requires falls { next < value }
        requires most { 0 < most }
        ensures some { 0 < result.0 }
        ensures most { result.0 ≤ most }
        ensures value { decayed self result.0 value ≡ result.1 }
        ensures falls { result.1 ≤ value }
    {
        if most < FEW_STEPS {
            return (1, next);
        }
        let fall = value - next;
        let steps = self.even_steps(value, fall).min(most);
        if steps == 1 {
            return (1, next);
        }
        let taken = steps.saturating_mul(fall);
        if value < taken {
            return (1, next);
        }
        let rest = value - taken;
        if rest < self.floor {
            return (1, next);
        }
        // The first and the last of these steps take the same amount, and so do those between them.
        if scaled(self.factor, rest + fall) != rest {
            return (1, next);
        }
        (steps, rest)
    }

    /// Returns how many steps in a row take the same amount of a value as the first. The amount is a share of the value,
    /// rounded up. It stays the same until the product falls to the next whole number, or the value passes the floor. The
    /// result is 1 if only few steps take the same amount.
    fn even_steps(self, value: u64, fall: u64) -> u64
        ensures { 0 < result }
    {
        let share = 1_000_000_u64.saturating_sub(self.factor);
        let pace = share.saturating_mul(fall);
        if STEEP < pace {
            return 1;
        }
        let room = share.saturating_mul(value).saturating_sub(1) % 1_000_000;
        let above = value.saturating_sub(self.floor) / fall.max(1);
        (room / pace.max(1)).saturating_add(1).min(above).max(1)
    }
}

/// Fewer steps than this are applied one by one.
const FEW_STEPS: u64 = 8;

/// If the amount of a step falls faster than this, at most a few steps in a row take the same. It is in millionths of a
/// millionth.
const STEEP: u64 = 250_000;

/// A counter that decays by steps, which are numbered from 1 on.
///
/// It stores a value, and the number of decays up to which that was decayed. A read applies the missing steps, but stores
/// nothing. A raise applies them too, and stores the new value.
#[derive(Clone, Copy, Debug, PartialEq, Eq)]
pub struct Counter {
    value: u64,
    decays: u64,
}

impl Model for Counter {
    ghost use Rattle.std.specs.Prelude.{◌≤◌, ◌^◌};
    ghost use Rattle.gs_score.specs.Counters.{Stored};

    ghost Value = { Stored };

    ghost view = { λ c. record { value = c.value; decays = c.decays } };

    ghost inverse = { λ s. record { value = s.value; decays = s.decays } };

    ghost invariant = { λ c. c.value ≤ 10 ^ 12 };
}

impl Counter {
    /// Returns a counter of 0, before the first step.
    pub fn new() -> Counter
        ensures { result ≡ record { value = 0; decays = 0 } }
    {
        Counter {
            value: 0,
            decays: 0,
        }
    }

    /// Returns the value after this number of decays, in millionths: 0 to 10^12. A number below the stored one undoes no
    /// decay.
    pub fn read(&self, decay: Decay, decays: u64) -> u64
        requires factor { decay.factor ≤ 10 ^ 6 }
        ensures value { result ≡ read_at decay decays self.now }
        ensures most { result ≤ 10 ^ 12 }
    {
        let missing = decays.saturating_sub(self.decays);
        if missing == 0 {
            return self.value;
        }
        decay.after(self.value, missing)
    }

    /// Raises the value that the counter has after these decays by an amount, up to a cap, in millionths.
    pub fn raise(&mut self, by: u64, cap: u64, decay: Decay, decays: u64)
        requires factor { decay.factor ≤ 10 ^ 6 }
        requires cap { cap ≤ 10 ^ 12 }
        ensures value { self.new ≡ record {
          value = raised cap by (read_at decay decays self.old);
          decays = decays;
        } }
    {
        let value = self.read(decay, decays);
        self.value = value.saturating_add(by).min(cap);
        self.decays = decays;
    }

    /// Returns the stored value, in millionths, and the number of decays up to which it was decayed.
    pub fn stored(&self) -> (u64, u64)
        ensures { result ≡ (self.now.value, self.now.decays) }
    {
        (self.value, self.decays)
    }
}

/// Returns what a deficit adds to a counter, which holds no more than 10^12. The amount is passed by reference: a proof
/// knows only the bits of a copied number.
pub(crate) fn capped_deficit(amount: &i128) -> u64
    ensures { result ≡ capped_deficit amount.now }
{
    if *amount < 0 {
        return 0;
    }
    amount.unsigned_abs().min(MOST_COUNTED as u128) as u64
}
