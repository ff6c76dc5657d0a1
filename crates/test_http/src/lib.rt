//! Tests of what stands around HTTP and can't be seen of the built program: look-ups of names with a stand-in for who answers
//! (`name_lookup`), how many jobs of a thread are under way (`shared_thread`), the values of a configuration and the places where a text
//! is no JSON (`serve_config`), of which tests/configurations has all that is told of them, and what the rules say (`http_rules`) where
//! the program never asks them. What it makes of them, clients and fetches are tested over the built program (tests/serve_rules,
//! tests/serve and those beside them).
//! Tested by: itself; `rt check --test` runs these tests.
#![tactic(auto)]

#[cfg(test)]
mod chains;
#[cfg(test)]
mod evidence;
#[cfg(test)]
mod heads;
#[cfg(test)]
mod json_faults;
#[cfg(test)]
mod names;
#[cfg(test)]
mod rows;
#[cfg(test)]
mod rules;
#[cfg(test)]
mod settings;
