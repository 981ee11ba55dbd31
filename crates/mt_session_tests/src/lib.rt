//! Tests of sessions: mt_items and mt_sessionview. What is left where an allocation or a write fails, and one session's text. The tests of editors note
//! operations one by one and mend sessions by them, which is mt_mending.
#![tactic(auto)]

#[cfg(test)]
mod tests;
