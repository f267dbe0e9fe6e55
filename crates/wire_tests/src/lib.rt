// Tests of reading and writing events and answers, case by case.
#![tactic(auto)]

#[cfg(test)]
mod answers;
#[cfg(test)]
mod events;
#[cfg(test)]
mod longest;
#[cfg(test)]
mod samples;
