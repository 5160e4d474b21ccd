// Tests of the readers of sheets and programs: each refusal with its place and detail, and the limits.
#![tactic(auto)]

#[cfg(test)]
mod draft;
#[cfg(test)]
mod programs;
#[cfg(test)]
mod sheets;
