//! Tables of instruction words by mask and value: the look-up of a word in a list of rows, trees of tests of fields
//! that find the same row, and the law that no word fits two rows of a table. Definitions and lemmas only: the decoders
//! stand on them.
#![tactic(auto)]
