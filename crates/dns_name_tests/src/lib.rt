//! Tests of names, and of what questions and records consist of.
#![tactic(auto)]

#[cfg(test)]
mod assertion;
#[cfg(test)]
mod canonical_order;
#[cfg(test)]
mod character_strings;
#[cfg(test)]
mod codes;
#[cfg(test)]
mod compression;
#[cfg(test)]
mod counting;
#[cfg(test)]
mod json;
#[cfg(test)]
mod name_text;
#[cfg(test)]
mod name_text_error;
#[cfg(test)]
mod names;
#[cfg(test)]
mod numbers;
#[cfg(test)]
mod pointers;
#[cfg(test)]
mod printing;
#[cfg(test)]
mod reversed_names;
#[cfg(test)]
mod unparsed_names;
#[cfg(test)]
mod writing;
