//! Which fronts suit a domain.
ghost use Rattle.std.specs.Prelude.{◌≡◌, ◌<◌, ◌+◌, ◌^◌, ◌↔◌, IsTrue, true};
ghost use Rattle.smi_log_front.specs.Suits as spec;
ghost use Rattle.smi_log_front.specs.Suits.{FrontSuits};

use crate::front::{Front, FrontKill};
use crate::sums::is_log_sum;
use smi_carried::carried_suits;
use sml_domain::Domain;
use sml_outset::suits;

// Whether the object is one of the domain's from a number on.
fn is_kill_from(domain: &Domain, from: usize, kill: &FrontKill) -> bool
    ensures is { result ≡ spec.is_kill_from domain.now from kill.now }
    ensures small { result ≡ true → kill.now.object + 1 < 2 ^ 64 }
{
    let objects = domain.objects();
    let o = kill.object.get();
    from <= o && o < objects
}

// Whether all are, in their order, and none twice.
fn are_kills_from(domain: &Domain, from: usize, kills: &[FrontKill]) -> bool
    ensures { result ≡ spec.are_kills_from domain.now from kills.now }
{
    match kills.split_first() {
        Some((first, rest)) => {
            is_kill_from(domain, from, first)
                && are_kills_from(domain, first.object.get() + 1, rest)
        }
        None => true,
    }
}

/// Whether a front may be that of a log of the domain. The cost is the square of the count of names, and that of
/// `sml_outset::suits`.
pub fn front_suits(domain: &Domain, front: &Front) -> bool
    ensures { IsTrue result ↔ FrontSuits domain.now front.now }
{
    is_log_sum(&front.domain_sum)
        && suits(domain, &front.outset)
        && carried_suits(domain, &front.carried)
        && are_kills_from(domain, 0, &front.kills)
        && is_log_sum(&front.log_sum)
}
