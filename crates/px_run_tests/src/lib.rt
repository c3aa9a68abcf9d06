//! Ends and whole runs whose calls fail or are watched, and the texts of errors: what no text alone can show.
#![tactic(auto)]

#[cfg(test)]
mod arrays;
#[cfg(test)]
mod ends;
#[cfg(test)]
mod example;
#[cfg(test)]
mod faults;
#[cfg(test)]
mod listings;
#[cfg(test)]
mod runs;
#[cfg(test)]
mod samples;
#[cfg(test)]
mod sessions;
#[cfg(test)]
mod texts;
#[cfg(test)]
mod watched;
