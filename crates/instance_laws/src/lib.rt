//! What an instance of a file without faults breaks. The function here is a law, which is proved and does nothing when it runs.
#![tactic(auto)]

ghost use Rattle.instance_laws.specs.Instances.{InstancesFollow};

/// An instance whose test passes breaks no rule.
pub fn instances_follow()
    ensures { InstancesFollow }
{}
