// The limits of docs/RULES.md, "Numbers", for the array types of the crates above. The policy itself is in specs/.
// `limits` ties each limit of the code to the one that the definitions use, so that neither changes alone.
#![tactic(auto)]

ghost use Rattle.std.specs.Prelude.{◌≡◌};
ghost use Rattle.rules.specs.Limits.{max_jobs, max_resources, max_units};

pub const JOBS: usize = 32;

pub const RESOURCES: usize = 8;

pub const UNITS: u16 = 1000;

fn limits() -> (usize, usize, u16)
    ensures jobs { result.0 ≡ max_jobs }
    ensures resources { result.1 ≡ max_resources }
    ensures units { result.2 ≡ max_units }
{
    (JOBS, RESOURCES, UNITS)
}
