//! Tests of worlds, by what callers see. They are apart, so that a test that changes has no crate below proved again.
#![tactic(auto)]

#[cfg(test)]
mod algorithms;
#[cfg(test)]
mod ample;
#[cfg(test)]
mod common;
#[cfg(test)]
mod conditions;
#[cfg(test)]
mod enrolling;
#[cfg(test)]
mod isolation;
#[cfg(test)]
mod loss;
#[cfg(test)]
mod proxies;
#[cfg(test)]
mod quiet;
#[cfg(test)]
mod ready;
#[cfg(test)]
mod refused;
#[cfg(test)]
mod revoked;
#[cfg(test)]
mod room;
#[cfg(test)]
mod through;
#[cfg(test)]
mod trees;
#[cfg(test)]
mod world;
