//! Worked heaps of edition four: roots, references and weak words that are immediates, through the calls of the lower
//! crates. Each expected value was worked by hand.
#![tactic(auto)]

#[cfg(test)]
mod cycle;
#[cfg(test)]
mod tests;
