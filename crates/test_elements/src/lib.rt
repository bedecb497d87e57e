//! Tests of what changes and chooses messages in log paths: patterns, filters and rewrites.
#![tactic(auto)]

#[cfg(test)]
mod filters;
#[cfg(test)]
mod limits;
#[cfg(test)]
mod messages;
#[cfg(test)]
mod ops;
#[cfg(test)]
mod patterns;
#[cfg(test)]
mod rewrites;
#[cfg(test)]
mod text;
