ghost use Rattle.std.specs.Prelude.{◌≡◌, ◌≤◌};
ghost use Rattle.gs_plan.specs.Limits.{longest_input, most_peers};

/// How large a scenario may be.
#[derive(Clone, Copy, Debug, PartialEq, Eq)]
pub enum Limits {
    /// At most 64 peers, and 8 MiB of text. Programs that run or check a scenario take these limits unless they are asked for
    /// the large ones.
    Standard,
    /// At most 4,096 peers, and 64 MiB of text. No program runs such a scenario over links.
    Large,
}

/// The most peers of a plan, within any limits.
pub const MOST_PEERS: usize = 4_096;

/// The longest text of a scenario in bytes, within any limits.
pub const LONGEST_INPUT: usize = 67_108_864;

impl Limits {
    /// Returns the most peers of a plan.
    pub fn most_peers(self) -> usize
        ensures most { result ≡ most_peers self }
        ensures within { result ≤ MOST_PEERS }
    {
        match self {
            Limits::Standard => 64,
            Limits::Large => MOST_PEERS,
        }
    }

    /// Returns the longest text of a scenario, in bytes.
    pub fn longest_input(self) -> usize
        ensures longest { result ≡ longest_input self }
        ensures within { result ≤ LONGEST_INPUT }
    {
        match self {
            Limits::Standard => 8_388_608,
            Limits::Large => LONGEST_INPUT,
        }
    }
}
