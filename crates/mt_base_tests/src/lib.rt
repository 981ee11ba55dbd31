//! Tests of the low crates: mt_testalloc, mt_digests, mt_stamp, mt_tracklist, mt_cells, mt_stampmap, mt_bwfread and mt_overlap.
#![tactic(auto)]

#[cfg(test)]
mod tests;
