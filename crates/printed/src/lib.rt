//! Laws, over words and bytes, of what the program prints: of `canon`, `simes`, `weights`, `bounds`, `catalogue` and `study`.
//! There are also laws of `test` on the graphs of textbook rules, of `stages` in each order, and of `evidence` together with
//! `check`. The other laws of these commands, and those of `sample`, are in `graph_cli`.
//!
//! Proved, for each answer with status 0:
//! - `canon_is_read_as_the_case`: what `canon` prints in a format is read in that format as the case that was read, and as no
//!   other. Two cases have the same text in a format exactly if they are the same case. A sheet doesn't hold its level, so this is
//!   stated of sheets with the same level.
//! - `canon_is_answered_as_the_case`: if what `canon` prints has at most 4,194,304 bytes, each command that reads a case has the
//!   same answers on it as on the case.
//! - `lesser_p_values_reject_no_less`: where some p-values of a case fall and none rises, `test` names as rejected each hypothesis
//!   that it named before.
//! - `evidence_is_confirmed_by_check`: if what `evidence` prints has at most 4,194,304 bytes, `check` for the same case answers
//!   `yes` with status 0, and nothing else. It lists the hypotheses of the steps, and keeps the others.
//! - `simes_reports_are_of_the_simes_test`: what `simes` prints names as rejected exactly the hypotheses that the closed test
//!   of weighted Simes tests rejects. It has one line for each set that isn't empty, with its bound by that test.
//! - `weights_are_of_the_intersections`: what `weights` prints has one line for each set that isn't empty, with the weights
//!   of its members in the intersection. By whatever p-values and level, these weights suffice for the closed test.
//! - `bounds_are_of_the_closed_test`: what `bounds` prints has one line for each set that isn't empty, with its bound by the
//!   closed test. If the closed test doesn't reject the set of the true hypotheses, no bound is above the number of false
//!   hypotheses in its set.
//! - `catalogue_is_of_the_named_graphs`: what `catalogue` prints is read as the case of the named graph. On all named graphs
//!   except that of improved parallel gatekeeping, by whatever p-values, the closed test rejects exactly what the textbook rule
//!   rejects. `test` on the case with these p-values ends with status 0 and names exactly these hypotheses. The weights of
//!   fallback are equal.
//! - `textbook_graphs_are_tested_by_their_rules`: `test` on a case with p-values and only fractions ends with status 0, and names
//!   exactly what the textbook rule of its graph rejects at the case's level. The graph is Holm's, a fixed sequence, that of
//!   parallel gatekeeping, or a fallback graph whose weights have a common denominator of at most 100,000,000.
//! - `stages_agree_in_every_order`: two cases that differ at most in the order of their arrivals have the same line `rejected`.
//! - `studies_are_of_the_staged_test`: what `study` prints is the report of the replies to its commands. Each line `show` names
//!   exactly what the staged closed test rejects on the looks that are kept at this point. The lines `reject` after a look name
//!   what the test rejects with this look, in addition to what it rejected before.
#![tactic(auto)]

pub mod laws;
