//! Drafts that make cases, in lines (`lines.rt`).

/// Drafts that make cases, and whether those are plain.
pub const ACCEPTED: &[(&str, bool)] = table! {
    // Holm's procedure.
    ("alpha 1/40\n hypotheses H1 H2 H3\n p 1/100 3/200 1/50\n\
      component A 1 1/3 1/3 1/3\n edge A H1 H2 1/2\n edge A H1 H3 1/2\n edge A H2 H1 1/2\n edge A H2 H3 1/2\n\
      edge A H3 H1 1/2\n edge A H3 H2 1/2", true),
    // Edges in any order, no two of them equal.
    ("hypotheses b a -\n\
      component A 2/3 1/2 1/5 0\n edge A - a 1/7\n edge A b - 1/3\n edge A a b 1/4\n edge A - b 1/6\n edge A b a 1/2\n\
      edge A a - 1/5", true),
    // The row sums are exactly 1.
    ("hypotheses H1 H2 H3 H4\n p 1 0 1/2 9/10\n\
      component A 1/8 1/4 1/4 1/4 1/4\n edge A H1 H2 1 -1\n edge A H1 H3 0 1\n edge A H4 H1 1/2 0 -1 0 2/3\n\
      edge A H4 H2 1/2 0 1 0 -2/3", false),
    // One edge of the last component has one coefficient above power 0, at power 4.
    ("hypotheses H1 H2\n component A 1/2 1/2 1/2\n component B 1/2 1/2 1/2\n edge B H1 H2 1/2\n edge B H2 H1 0 0 0 0 1", false),
    // Epsilon is below each fraction above 0, however many times it is taken.
    ("hypotheses H1 H2 H3 H4\n\
      component A 1/8 1/4 1/4 1/4 1/4\n edge A H1 H2 1/1000000000000000000 -1000000000000000000\n\
      edge A H2 H1 0 1/1000000000000000000 -1000000000000000000\n edge A H3 H1 1/2 1000000000000000000\n\
      edge A H4 H1 1 -1/1000000000000000000 1 1 1", false),
    // Edges of 0, one of them from a hypothesis to itself.
    ("hypotheses H1 H2\n component A 1/2 1/2 1/2\n edge A H2 H2 0\n edge A H2 H1 0\n edge A H1 H2 1", true),
    // Two graphs over the same hypotheses, with the same ends in both.
    ("hypotheses H1 H2\n component A 1/2 1 0\n edge A H1 H2 1\n component B 1/3 0 1\n edge B H1 H2 1/2\n edge B H2 H1 1", true),
    // There is a place for each p-value, and none is given.
    ("hypotheses H1 H2\n p - -\n component A 1/2 1/2 1/2", true),
    // The limits.
    ("alpha 1/10000\n hypotheses abcdefghijklmnopqrstuvwxyz012345 x\n\
      p 1/1000000000000000000000000000000 999999999999999999999999999999/1000000000000000000000000000000\n\
      component A 1/1000000000000000000 999999999999999999/1000000000000000000 1/1000000000000000000\n\
      edge A abcdefghijklmnopqrstuvwxyz012345 x 0 1/1000000000000000000 -1000000000000000000", false),
    ("alpha 1\n hypotheses H1 H2\n p 1 0\n component A 1/2 1/2 1/2", true),
    ("alpha 9999/10000\n hypotheses H1 H2\n\
      component A 1/8 1/2 1/2\n\
      component B 1/8 1/2 1/2\n\
      component C 1/8 1/2 1/2\n\
      component D 1/8 1/2 1/2\n\
      component E 1/8 1/2 1/2\n\
      component F 1/8 1/2 1/2\n\
      component G 1/8 1/2 1/2\n\
      component H 1/8 1/2 1/2", true),
    // The sums are below 1, down to 0.
    ("hypotheses h1 H1\n component A 0 0 0", true),
    // The parts of the sums are near their size.
    ("hypotheses H1 H2 H3 H4\n\
      component A 1/8 1/1000000000000000000 1/999999999999999999 1/167 0\n edge A H1 H2 1/1000000000000000000\n\
      edge A H1 H3 1/999999999999999999\n edge A H1 H4 1/167", true),
    ("hypotheses _.-\n p 1/40\n component A 1 1", true),
};

/// Stages of `TWO`.
pub const STAGED: &[&str] = table! {
    "stages 2\n spend H1 1/2 1/2\n spend H2 1/2 1/2",
    "stages 2\n table H1\n step H1 1/2 1/100 3/200\n step H1 1 1/50 3/100\n spend H2 1/2 1/2\n arrive H1 1 1/50\n\
     arrive H2 1 3/250",
    // Sums that exactly reach their bounds, each step by itself.
    "stages 2\n table H1\n step H1 1/3 0 1/60\n step H1 1/2 1/120 1/60\n step H1 1 1/120 1/24\n spend H2 0 1\n arrive H2 2 1\n\
     arrive H1 2 0\n arrive H2 1 0\n arrive H1 1 1",
    // Levels that stay the same, and steps that begin low.
    "stages 1\n table H1\n step H1 1/1000000000000000000 0\n step H1 1/2 0\n table H2\n step H2 1/10000 1/200000\n\
     step H2 1/100 1/200000",
    // The limits.
    "stages 12\n spend H1 1/12 1/12 1/12 1/12 1/12 1/12 1/12 1/12 1/12 1/12 1/12 1/12\n\
     spend H2 1/10000 1/10000 1/10000 1/10000 1/10000 1/10000 1/10000 1/10000 1/10000 1/10000 1/10000 1/10000\n\
     arrive H1 12 1/1000000000000000000000000000000",
    // Nothing is spent.
    "stages 2\n spend H1 0 0\n table H2\n step H2 1 0 0",
};

/// The greatest number of hypotheses.
pub const SIXTY_FOUR: &str =
    "hypotheses B C D E F G H I J K L M N O P Q R S T U V W X Y Z a b c d e f g h i j k l m n o p q r s t u v w x y z 0 1 2 3 4 5 6 7 8 9 _ . -
                              component A 1 1/65 1/65 1/65 1/65 1/65 1/65 1/65 1/65 1/65 1/65 1/65 1/65 1/65 1/65 1/65 1/65 1/65 1/65 1/65 1/65 1/65 1/65 1/65 1/65 1/65 1/65 1/65 1/65 1/65 1/65 1/65 1/65 1/65 1/65 1/65 1/65 1/65 1/65 1/65 1/65 1/65 1/65 1/65 1/65 1/65 1/65 1/65 1/65 1/65 1/65 1/65 1/65 1/65 1/65 1/65 1/65 1/65 1/65 1/65 1/65 1/65 1/65 1/65 1/65";
