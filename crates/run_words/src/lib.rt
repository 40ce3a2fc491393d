//! What both top calls read and say: the words that name a mill, the texts of refusals, the files of a mill, and how a run ends
//! by a fault. Definitions and lemmas, and no code: the solver's and the checker's stand apart.
//!
//! The definitions are read in this order: `Words` (one word, and words in their places), `Grammar` (the words of a command as a
//! grammar, with the first that can't stand), `Texts` (what both say), `Files` (a mill in its files), `Opens` (which files are
//! opened) and `Ends` (the status that the outside's failing leaves).
#![tactic(auto)]
