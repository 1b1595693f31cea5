//! The top call: from the words of the command, a setup and its grammars to what each line of the input says.
//!
//! [`speak`] is the whole program but for its devices. Its contract says, for every input: what words and files ask for
//! (`specs/Requests.antt`, `specs/Accepted.antt`), with the text of each refusal (`specs/Texts.antt`), what each line says by the
//! relations of the rules alone (`specs/Plans.antt`, `specs/Answers.antt`), what `out` and `err` are owed of it by the job (`specs/Outputs.antt`,
//! `specs/Owed.antt`, `specs/Told.antt`), the cause of each status (`specs/Stops.antt`, `specs/Inputs.antt`), and how much of the input was
//! read (`specs/Given.antt`). No transducer and no search occurs in it. What a setup is says `speak_setup`, what a grammar exports
//! `thrax_link`, what the lines are `text_lines`, those of a sample and their summary `sample_lines`, and what one line says `normaliser`.
//!
//! `specs/Intakes.antt`, `specs/Parts.antt`, `specs/Loaded.antt` and `specs/Works.antt` speak of the private calls alone.
#![tactic(auto)]

mod batches;
mod crews;
mod gathering;
mod intakes;
mod loading;
mod outside;
mod reports;
mod requests;
mod rules;
mod running;
mod samples;
mod sampling;
mod shares;
mod sizes;
mod speakers;
mod speaking;
mod stop;
mod texts;
mod top;
mod watch;
mod works;

pub use normaliser::Caller;
pub use speak_setup::{Need, Setup, SetupFault, read_setup};
pub use top::speak;
pub use watch::{NoWatch, Watch};
