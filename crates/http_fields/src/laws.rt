//! Laws of the definitions, for the crates above. Each function does nothing: its contract is the law.
ghost use Rattle.http_fields.specs.Laws.{LimitsAre, PartsAreRead};

/// States the limits of names, ETags, heads and connections in numbers.
pub fn law_limits_are()
    ensures { LimitsAre }
{}

/// States that ETags, numbers and field lines are read as they were written. It also states which lists of entity tags
/// match, and what the members of a list are.
pub fn law_parts_are_read()
    ensures { PartsAreRead }
{}
