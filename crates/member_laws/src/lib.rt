//! How long a list without repetition is. The function here is a law, which is proved and does nothing when it runs.
#![tactic(auto)]

ghost use Rattle.member_laws.specs.Members.{FewMembers};

/// A list of dots or of thresholds that has each once is no longer than a list in which all of them stand.
pub fn few_members()
    ensures { FewMembers }
{}
