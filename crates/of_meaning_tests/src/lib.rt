//! Sources whose words a plain interpreter walks, against the runs of their images.
#![tactic(auto)]

#[cfg(test)]
mod compare;
#[cfg(test)]
mod random;
#[cfg(test)]
mod sequences;
#[cfg(test)]
mod walk;
#[cfg(test)]
mod words;
