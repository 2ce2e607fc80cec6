//! Tests of streams and texts, through the public calls of `iso_text`: what the cases of `file_rows`
//! don't reach.
#![tactic(auto)]

#[cfg(test)]
mod streams;
#[cfg(test)]
mod texts;
