// Lives and cuts that the laws of a zone speak of: without them a law could hold of nothing.
ghost use Rattle.worked_sums.specs.Witnesses.{Story, Parts};

/// The laws speak of lives and cuts that there are: a life with an accepted and a refused call of
/// every kind, and a raise cut in three: 23.908600 euros at once, three times 7.969533 in parts.
pub const fn laws_have_cases()
    ensures life { Story }
    ensures cut { Parts 23908600 7969533 }
{}
