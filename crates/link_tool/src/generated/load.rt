//! The numbers of a load.
ghost use Rattle.std.specs.Prelude.{◌≡◌, ◌≤◌, ◌^◌};
ghost use Rattle.link_tool.specs.Generated.{next_number, load_of, load_steps};

/// What the parts of a load are made with.
#[derive(Clone, Copy)]
pub struct Workload {
    /// How often the module calls itself: 100 to 999 of a seed.
    pub rounds: u16,
    /// What the other part adds: 0 to 99 of a seed.
    pub added: u16,
}

// The number that follows another one.
fn next_number(number: u32) -> u32
    ensures { result ≡ next_number number }
{
    ((1_103_515_245 * u64::from(number) + 12_345) % 2_147_483_648) as u32
}

/// The load of a seed: its numbers come of the two that follow the seed, each of the one before it.
pub fn load_of(seed: u32) -> Workload
    ensures { result ≡ load_of seed }
{
    let first = next_number(seed);
    let second = next_number(first);
    Workload {
        rounds: (100 + first / 65_536 % 900) as u16,
        added: (second / 65_536 % 100) as u16,
    }
}

/// How many instructions a load runs for at most: 10,000,000.
#[tactic(auto, unfolding(crate::specs::Generated::load_steps))]
pub fn load_steps() -> u64
    ensures is { result ≡ load_steps }
    ensures fits { result ≤ 2 ^ 63 }
{
    10_000_000
}
