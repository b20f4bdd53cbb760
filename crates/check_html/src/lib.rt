//! Tests of documents that need code: the laws of reading at a rule, calls that no program makes, and the log of steps. What is
//! read of whole documents is compared with outside answers by tools/document-cases.
#![tactic(auto)]

#[cfg(test)]
mod calls;
#[cfg(test)]
mod logs;
#[cfg(test)]
mod rules;
