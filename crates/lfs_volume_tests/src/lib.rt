// SPDX-License-Identifier: BSD-3-Clause
//! Tests of volumes, each a list of calls with their expected results.
#![tactic(auto)]

#[cfg(test)]
mod changes;
#[cfg(test)]
mod counts;
#[cfg(test)]
mod example;
#[cfg(test)]
mod other_calls;
#[cfg(test)]
mod paths;
#[cfg(test)]
mod rows;
#[cfg(test)]
mod space;
