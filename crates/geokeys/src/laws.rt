//! A law of the definitions, for the crates above. The function does nothing: its contract is the law.
ghost use Rattle.geokeys.specs.Same.{KeysAreUnique};

/// States that what keys are read from has one minor revision and one list of keys.
pub fn law_one_geo()
    ensures keys { KeysAreUnique }
{}
