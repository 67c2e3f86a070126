//! Texts by hand, with the lines and words that a reader should see in them.
use crate::forms::checks::expect;
use text_lines::{Line, Lines, Words};

/// A text, its lines that aren't skipped with their numbers, and the number of the line after the last.
type Cut = (&'static str, &'static [(usize, &'static str)], usize);

const CUT: &[Cut] = &[
    ("", &[], 1),
    ("a", &[(1, "a")], 2),
    ("a\n", &[(1, "a")], 2),
    ("a\nb c", &[(1, "a"), (2, "b c")], 3),
    ("a\n\n", &[(1, "a")], 3),
    ("\n", &[], 2),
    ("\n\n\nb\n", &[(4, "b")], 5),
    // One carriage return goes with its line feed.
    ("a\r\nb\r\n", &[(1, "a"), (2, "b")], 3),
    ("a\r\r\nb", &[(1, "a\r"), (2, "b")], 3),
    ("a\rb\n", &[(1, "a\rb")], 2),
    ("a\r", &[(1, "a")], 2),
    ("\r\nb\n", &[(2, "b")], 3),
    // Blank lines and comments are skipped.
    ("# a\nb\n", &[(2, "b")], 3),
    (" \t# a\n \t\nb", &[(3, "b")], 4),
    ("a # b\n", &[(1, "a # b")], 2),
    ("#", &[], 2),
    (" \u{b}\n", &[(1, " \u{b}")], 2),
];

/// Whether there is no next line, and the text ends in front of the line of this number.
fn is_at_end(lines: &mut Lines, end: usize) -> bool {
    lines.next().is_none() && lines.next_number() == end
}

/// Whether these are the lines, with their numbers, and then there is none, nor any later.
fn has_lines(text: &str, wanted: &[(usize, &str)], end: usize) -> bool {
    let mut lines = Lines::new(text.as_bytes());
    for (number, line) in wanted {
        match lines.next() {
            Some(found) if found.number == *number && found.text == line.as_bytes() => {}
            _ => return false,
        }
    }
    is_at_end(&mut lines, end) && is_at_end(&mut lines, end)
}

#[test]
fn texts_are_cut_at_line_feeds(rt: HostRuntime) {
    for (text, lines, end) in CUT {
        expect(&rt, has_lines(text, lines, *end), text);
    }
}

/// Lines, and their words, each with the rest after it.
const WORDS: &[(&str, &[(&str, &str)])] = &[
    ("", &[]),
    (" \t ", &[]),
    ("ab", &[("ab", "")]),
    ("a b", &[("a", " b"), ("b", "")]),
    ("\ta \t bc ", &[("a", " \t bc "), ("bc", " ")]),
    ("a\u{b}b\rc", &[("a\u{b}b\rc", "")]),
];

/// Whether these are the words of a line, each with the rest after it, and then there is none, nor any later.
fn has_words(line: &str, wanted: &[(&str, &str)]) -> bool {
    let mut words = Words::new(line.as_bytes());
    for (word, rest) in wanted {
        if words.next() != Some(word.as_bytes()) || words.rest() != rest.as_bytes() {
            return false;
        }
    }
    words.next().is_none() && words.next().is_none()
}

#[test]
fn lines_are_cut_at_blanks(rt: HostRuntime) {
    for (line, words) in WORDS {
        expect(&rt, has_words(line, words), line);
    }
}

#[test]
fn words_are_counted(rt: HostRuntime) {
    assert!(rt; Words::new(b" ab ").one() == Some(b"ab"));
    assert!(rt; Words::new(b"  ").one().is_none());
    assert!(rt; Words::new(b"a b").one().is_none());
    assert!(rt; Words::new(b"a bc d").three() == Some((b"a", b"bc", b"d")));
    assert!(rt; Words::new(b"a b").three().is_none());
    assert!(rt; Words::new(b"a b c d").three().is_none());
}

/// Lines, and what follows `edge` if that is the first word.
const BEHIND: &[(&str, Option<&str>)] = &[
    (" edge a b", Some(" a b")),
    ("edge", Some("")),
    ("edges a", None),
    ("edg", None),
    ("a edge", None),
    ("", None),
];

/// Whether this follows the first word `edge` of a line; if `None`, whether the first word is another.
fn is_behind_edge(text: &str, rest: &Option<&str>) -> bool {
    let line = Line {
        number: 1,
        text: text.as_bytes(),
    };
    match (line.words_after(b"edge"), rest) {
        (Some(words), Some(rest)) => words.rest() == rest.as_bytes(),
        (None, None) => true,
        _ => false,
    }
}

#[test]
fn keywords_are_first_words(rt: HostRuntime) {
    for (line, rest) in BEHIND {
        expect(&rt, is_behind_edge(line, rest), line);
    }
}
