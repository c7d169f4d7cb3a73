//! What holds of the flat design that a walk leaves. The function here is a law, which is proved and does nothing when it runs.
#![tactic(auto)]

ghost use Rattle.site_laws.specs.Sites.{WalkedSitesHold};

/// A walk only adds objects, and leaves no more processes and instances than a design may have, with DOMAIN_TYPE as its first
/// enumeration type and without ramps.
pub fn walked_sites_hold()
    ensures { WalkedSitesHold }
{}
