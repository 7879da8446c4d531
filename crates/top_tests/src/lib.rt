//! Tests of the words of a command and of the statuses of the top call, by their public calls alone. What a call does on an
//! image and an input is told by the cases of `cape_cases`.
#![tactic(auto)]

#[cfg(test)]
mod statuses;
#[cfg(test)]
mod sure;
#[cfg(test)]
mod words;
