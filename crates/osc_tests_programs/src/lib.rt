//! Tests of stores, settings, simulations and programs, by what callers see and rows don't show: stores over disks in memory that are cut, damaged or
//! foreign, and over files; logs; inputs and outputs that break. They are apart, so that a test that changes has no crate below proved again.
#![tactic(auto)]

#[cfg(test)]
mod broken;
#[cfg(test)]
mod changes;
#[cfg(test)]
mod checks;
#[cfg(test)]
mod cuts;
#[cfg(test)]
mod damage;
#[cfg(test)]
mod device;
#[cfg(test)]
mod disks;
#[cfg(test)]
mod faults;
#[cfg(test)]
mod foreign;
#[cfg(test)]
mod logs;
#[cfg(test)]
mod paths;
#[cfg(test)]
mod programs;
#[cfg(test)]
mod settings;
#[cfg(test)]
mod stores;
#[cfg(test)]
mod sweeps;
#[cfg(test)]
mod tokens;
#[cfg(test)]
mod wholes;
