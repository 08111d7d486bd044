//! What a file is to claim.

ghost use Rattle.std.specs.Prelude.{ℕ, ◌≡◌, ◌<◌, ◌↔◌, length, All, Contains, IfOk};
ghost use Rattle.rz_log.specs.Reachable.{IsReachable, IsRising};
ghost use Rattle.rz_export.specs.Claims.{steps_claimed};

use rz_log::Log;
use rz_rules::{Name, Numbers, OutOfMemory};
use std::alloc::Global;

/// A name for what a step of a log says.
#[derive(Debug, Drop)]
pub struct Claimed {
    /// A name of a file of derivations.
    pub name: Name,
    /// The number of a line of the log.
    pub step: u64,
}

/// The steps that are claimed, in the order of the claims.
fn claimed_steps(alloc: Global, claims: &[Claimed]) -> Result<Numbers, OutOfMemory>
    ensures { IfOk result (λ steps. steps ≡ steps_claimed claims.now) }
{
    let mut steps = Numbers::new(alloc);
    for claim in claims {
        steps.push(claim.step)?;
    }
    Ok(steps)
}

/// The steps that are claimed and those on which they rest, rising.
pub fn supporting_steps(
    alloc: Global,
    log: &Log,
    claims: &[Claimed],
) -> Result<Numbers, OutOfMemory>
    requires { All (λ claim. claim.step < length log.now) claims.now }
    ensures exact { IfOk result (λ steps. (step : ℕ)
        → Contains steps step ↔ IsReachable log.now (steps_claimed claims.now) step) }
    ensures rising { IfOk result IsRising }
{
    let roots = claimed_steps(alloc, claims)?;
    log.reachable(alloc, &roots)
}
