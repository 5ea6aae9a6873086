// The run record by example: records as they are written, read, refused and played.
#![tactic(auto)]

#[cfg(test)]
mod damaged;
#[cfg(test)]
mod examples;
#[cfg(test)]
mod sizes;
