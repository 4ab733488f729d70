// The seconds that a neighbour spent in each state (02, L7), counted by its ticks. They stand beside its record, and
// outlive Idle.
#![tactic(auto)]

ghost use Rattle.std.specs.Prelude.{◌<◌, ◌≡◌};
ghost use Rattle.neighbour_seconds.specs.Seconds.{no_seconds, seconds_sum, most_seconds, are_none, seconds_formed, clock_full, counted};

use neighbour::Phase;

// One count for each of RFC 904's states, in 01's order.
#[derive(Clone, Copy, Debug, Default, PartialEq, Eq)]
pub struct Seconds {
    pub idle: u32,
    pub acquisition: u32,
    pub down: u32,
    pub up: u32,
    pub cease: u32,
}

// The largest sum: what one count of 32 bits can hold.
const MOST: u64 = u32::MAX as u64;

impl Seconds {
    pub fn none() -> Seconds
        ensures { result ≡ no_seconds }
    {
        Seconds::default()
    }

    // The sum of the five, in 64 bits: in 32 it would wrap.
    #[tactic(auto, unfolding(crate::specs::Seconds::seconds_sum))]
    pub fn sum(self) -> u64
        ensures { result ≡ seconds_sum self }
    {
        u64::from(self.idle)
            + u64::from(self.acquisition)
            + u64::from(self.down)
            + u64::from(self.up)
            + u64::from(self.cease)
    }

    #[tactic(auto, unfolding(crate::specs::Seconds::are_none))]
    pub fn are_none(self) -> bool
        ensures { result ≡ are_none self }
    {
        self.sum() == 0
    }

    // Check 1 as far as it concerns the counts.
    #[tactic(auto, unfolding(crate::specs::Seconds::seconds_formed))]
    pub fn are_formed(self) -> bool
        ensures { result ≡ seconds_formed self }
    {
        self.sum() <= MOST
    }

    // Whether there is no room for another second.
    #[tactic(auto, unfolding(crate::specs::Seconds::clock_full))]
    pub fn is_full(self) -> bool
        ensures { result ≡ clock_full self }
    {
        self.sum() == MOST
    }

    // A second more in this state.
    #[tactic(auto, unfolding(crate::specs::Seconds::counted, crate::specs::Seconds::seconds_sum))]
    pub fn count(self, phase: Phase) -> Seconds
        requires { seconds_sum self < most_seconds }
        ensures { result ≡ counted phase self }
    {
        match phase {
            Phase::Idle => Seconds {
                idle: self.idle + 1,
                ..self
            },
            Phase::Acquisition => Seconds {
                acquisition: self.acquisition + 1,
                ..self
            },
            Phase::Down => Seconds {
                down: self.down + 1,
                ..self
            },
            Phase::Up => Seconds {
                up: self.up + 1,
                ..self
            },
            Phase::Cease => Seconds {
                cease: self.cease + 1,
                ..self
            },
        }
    }
}
