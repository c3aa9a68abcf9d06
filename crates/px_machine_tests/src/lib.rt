//! Pixels, trees and arrays clocked by hand: what each clock and each operation leaves in them.
#![tactic(auto)]

#[cfg(test)]
mod at_once;
#[cfg(test)]
mod clocks;
#[cfg(test)]
mod compared;
#[cfg(test)]
mod drawn;
#[cfg(test)]
mod macros;
#[cfg(test)]
mod numbers;
#[cfg(test)]
mod operations;
#[cfg(test)]
mod pixels;
#[cfg(test)]
mod trees;
#[cfg(test)]
mod words;
