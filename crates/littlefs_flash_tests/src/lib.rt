// SPDX-License-Identifier: BSD-3-Clause
//! Tests of the calls for C, on a flash in memory.
#![tactic(auto)]

#[cfg(test)]
mod calls;
