//! Tests of the top call and of what stands next to it that need code: streams that fail or find no memory, a page that is shown twice, the
//! flow of a page that can be turned, pages after edits, and a face that is given up. Whole inputs are compared with outside
//! listings by tools/document-cases.
#![tactic(auto)]

#[cfg(test)]
mod asked;
#[cfg(test)]
mod edited;
#[cfg(test)]
mod flowing;
#[cfg(test)]
mod opening;
#[cfg(test)]
mod retired;
#[cfg(test)]
mod running;
#[cfg(test)]
mod runs;
#[cfg(test)]
mod scant;
#[cfg(test)]
mod shown;
#[cfg(test)]
mod streams;
