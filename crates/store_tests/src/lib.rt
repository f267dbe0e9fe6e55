// Tests of stored records: stores filled, emptied in many orders and filled again; values, hashes and pointers written and read; keys and
// values compared; stores asked however few places they have.
#![tactic(auto)]

#[cfg(test)]
mod few;
#[cfg(test)]
mod orders;
#[cfg(test)]
mod records;
#[cfg(test)]
mod texts;
