// Tests of paths, their bits in bytes, keys and timestamps, case by case.
#![tactic(auto)]

#[cfg(test)]
mod paths;
#[cfg(test)]
mod times;
