//! Tests of `dns_canon`: devices that fail, files, and the calls that a row of words and text does not reach.
#![tactic(auto)]

#[cfg(test)]
mod answers;
#[cfg(test)]
mod failing_devices;
#[cfg(test)]
mod files;
#[cfg(test)]
mod lists;
#[cfg(test)]
mod questions_and_records;
#[cfg(test)]
mod replies;
#[cfg(test)]
mod statuses;
#[cfg(test)]
mod two_faults;
