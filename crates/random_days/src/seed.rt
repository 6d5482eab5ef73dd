// Random numbers that hang on a seed and a place alone (splitmix64), so that nothing is changed by drawing one.
ghost use Rattle.random_days.specs.Seeds.{Happens, drawn_below, mix, number_at};
ghost use Rattle.std.specs.Prelude.{◌≡◌, ◌<◌, ◌≤◌, ◌+◌, ◌-◌, ◌%◌, ◌^◌, true, false, Decides};

const STEP: u64 = 0x9E37_79B9_7F4A_7C15;

const FIRST_FACTOR: u64 = 0xBF58_476D_1CE4_E5B9;

const SECOND_FACTOR: u64 = 0x94D0_49BB_1331_11EB;

#[derive(Clone, Copy)]
pub struct Seed {
    number: u64,
}

impl Seed {
    pub fn new(number: u64) -> Seed
        ensures { result.number ≡ number }
    {
        Seed { number }
    }

    // One of the seeds that this one has, by its place.
    #[tactic(auto, unfolding(crate::specs::Seeds::number_at))]
    pub fn at(self, place: u64) -> Seed
        ensures { result.number ≡ number_at self.number place }
    {
        let steps = place.wrapping_add(1).wrapping_mul(STEP);
        Seed {
            number: mixed(self.number.wrapping_add(steps)),
        }
    }

    // A number below the bound; 0 if there is none.
    #[tactic(auto, unfolding(crate::specs::Seeds::drawn_below))]
    pub fn below(self, bound: u64) -> u64
        ensures value { result ≡ drawn_below bound self.number }
        ensures below { 0 < bound → result < bound }
        ensures number { 0 < bound → result ≡ self.number % bound }
        ensures nothing { bound ≡ 0 → result ≡ 0 }
    {
        if bound == 0 { 0 } else { self.number % bound }
    }

    // A number from `low` to `high`.
    pub fn between(self, low: u64, high: u64) -> u64
        ensures low { low ≤ result }
        ensures high { low ≤ high → result ≤ high }
        ensures number { low ≤ high → high - low + 1 < 2 ^ 64 → result ≡ low + self.number % (high - low + 1) }
    {
        let more = high.saturating_sub(low).saturating_add(1);
        low.saturating_add(self.below(more))
    }

    // True about so many times in a hundred.
    pub fn percent(self, chance: u64) -> bool
        ensures happens { Decides result (Happens self.number chance) }
        ensures never { chance ≡ 0 → result ≡ false }
        ensures always { 100 ≤ chance → result ≡ true }
    {
        self.below(100) < chance
    }
}

#[tactic(auto, unfolding(crate::specs::Seeds::mix))]
fn mixed(number: u64) -> u64
    ensures { result ≡ mix number }
{
    let first = (number ^ (number >> 30)).wrapping_mul(FIRST_FACTOR);
    let second = (first ^ (first >> 27)).wrapping_mul(SECOND_FACTOR);
    second ^ (second >> 31)
}
