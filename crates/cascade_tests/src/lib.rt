//! Tests of codes of expansions, and of callers that keep them in a shared table.
#![tactic(auto)]

#[cfg(test)]
mod codes;
#[cfg(test)]
mod decodings;
#[cfg(test)]
mod hands;
