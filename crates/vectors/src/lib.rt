#![tactic(auto)]

// Examples with known outcomes, run as tests.
#[cfg(test)]
mod commands;
#[cfg(test)]
mod numbers;
#[cfg(test)]
mod texts;
