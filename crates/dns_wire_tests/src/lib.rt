//! Tests of reading and writing octets, of numbers on the wire, and of labels.
#![tactic(auto)]

#[cfg(test)]
mod adapters;
#[cfg(test)]
mod agreement;
#[cfg(test)]
mod devices;
#[cfg(test)]
mod error_texts;
#[cfg(test)]
mod holds;
#[cfg(test)]
mod label_buf;
#[cfg(test)]
mod label_order;
#[cfg(test)]
mod label_text;
#[cfg(test)]
mod labels;
#[cfg(test)]
mod lists;
#[cfg(test)]
mod number_values;
#[cfg(test)]
mod pointers;
#[cfg(test)]
mod printed;
#[cfg(test)]
mod size_prefixed;
