#![tactic(auto)]

// Examples of the host side with known outcomes, run as tests.
#[cfg(test)]
mod building;
#[cfg(test)]
mod fields;
#[cfg(test)]
mod responses;
#[cfg(test)]
mod shared;
