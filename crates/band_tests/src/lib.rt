//! Tests over whole scripts, with what they come to written by hand.
#![tactic(auto)]

#[cfg(test)]
mod devices;
#[cfg(test)]
mod examples;
#[cfg(test)]
mod faults;
#[cfg(test)]
mod playing;
#[cfg(test)]
mod rows;
#[cfg(test)]
mod streams;
#[cfg(test)]
mod telling;
