// Tests at the limits that no request to `probe` can reach: values that are not made, sources that are too short, chains of
// stages, a link that is read back, printed sentences and unequal values. They stand in a crate of their own, since a crate with
// tests is proved twice.
#![tactic(auto)]

#[cfg(test)]
mod chains;
#[cfg(test)]
mod curves;
#[cfg(test)]
mod lattices;
#[cfg(test)]
mod links;
#[cfg(test)]
mod words;
