//! Tests of schedules in which answers come late, cut, again or to others, and of checks. They are scripts with their logs, and random
//! schedules beside the plain program.
#![tactic(auto)]

#[cfg(test)]
mod tests;
