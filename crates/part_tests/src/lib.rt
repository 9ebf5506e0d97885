#![tactic(auto)]

// Examples of the parts of a card, with known outcomes, run as tests.
#[cfg(test)]
mod images;
#[cfg(test)]
mod sealing;
#[cfg(test)]
mod shared;
#[cfg(test)]
mod storing;
#[cfg(test)]
mod tallies;
