//! The limits on what all instances so far have (own).
ghost use Rattle.std.specs.Prelude.{◌≡◌};
ghost use Rattle.unit_meaning.specs.Walk as spec;
ghost use Rattle.instance_counts.specs.Passed.{has_many_unknowns, unless_passed};

use flat_design::{PROCESS_LIMIT, SIGNAL_LIMIT, THRESHOLD_LIMIT, UNKNOWN_LIMIT};
use unit_meaning::{Limit, Site};

/// Whether quantities, nodes and dots are more than the unknowns that a design may have.
fn has_many_unknowns(site: &Site) -> bool
    ensures { result ≡ has_many_unknowns site.now }
{
    let objects = &site.objects;
    let count = objects.quantities.len().saturating_add(objects.nodes.len());
    count.saturating_add(site.dots.len()) > UNKNOWN_LIMIT
}

/// The first limit that the flat design so far is past, in the order unknowns, signals, processes, thresholds.
pub fn limit_passed(site: &Site) -> Option<Limit>
    ensures { spec.within_limits site.now ≡ unless_passed result site.now }
{
    if has_many_unknowns(site) {
        Some(Limit::Unknowns)
    } else if site.objects.signals.len() > SIGNAL_LIMIT {
        Some(Limit::Signals)
    } else if site.processes as usize > PROCESS_LIMIT {
        Some(Limit::Processes)
    } else if site.thresholds.len() > THRESHOLD_LIMIT {
        Some(Limit::Thresholds)
    } else {
        None
    }
}
