//! Tests of the workers of a run, which speak the lines of a batch side by side, and of the sweeper beside them.
//!
//! They show that what is written is the same for every number of workers, places and rounds, and that each line is told to the watch once
//! before it is spoken and once after it, by the worker that it belongs to. That two workers run at the same time is shown by a test alone,
//! `two_lines_at_once`: no clause says of a thread that it gets on while another one waits.
#![tactic(auto)]

#[cfg(test)]
mod runs;
#[cfg(test)]
mod same;
#[cfg(test)]
mod told;
#[cfg(test)]
mod watches;
