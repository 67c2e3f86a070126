//! Drafts that are written in lines.
//!
//! | Line | Content |
//! |---|---|
//! | `hypotheses NAME..` | the names |
//! | `alpha N` | the level, 1/20 if there is no such line |
//! | `p N..` | the p-values, `-` for one that is missing |
//! | `component LABEL N N..` | a component: its share and its weights |
//! | `edge LABEL NAME NAME N..` | an edge of this component: the coefficients by ascending power of epsilon, 0 after the last |
//! | `stages N` | how many stages there are |
//! | `spend NAME N..` | what a hypothesis spends: fractions of the level |
//! | `table NAME`, `table NAME N` | or a table, which has each of its steps once, or N times |
//! | `step NAME N N..` | a step of this table: the weight from which it counts, and its levels |
//! | `arrive NAME N N` | a p-value that arrived: its stage, and its value |
use crate::rows::fraction;
use case_model::{Arrival, Draft, DraftComponent, DraftEdge, DraftStages, Entry, Spend, SpendStep};
use field_core::{List, Text};
use fraction::Fraction;
use numerals::whole_number;
use std::process::Abort;
use text_lines::{Lines, Words};

// ---- words

fn word<'a>(rt: &impl Abort, words: &mut Words<'a>) -> &'a [u8] {
    words.next().expect(rt, "no word")
}

fn number(rt: &impl Abort, word: &[u8]) -> Fraction {
    Fraction::parse(word).expect(rt, "no number")
}

fn whole(rt: &impl Abort, word: &[u8]) -> u64 {
    let number = whole_number(word, 20).expect(rt, "no whole number");
    u64::try_from(number).expect(rt, "too great")
}

pub fn numbers(rt: &(impl Abort + AllocGlobal), words: Words) -> List<Fraction> {
    let mut list = List::new(rt.alloc());
    for word in words {
        list.push(number(rt, word)).expect(rt, "no memory");
    }
    list
}

fn position(rt: &impl Abort, names: &[Text], name: &[u8]) -> usize {
    for i in 0..names.len() {
        if names[i].as_bytes() == name {
            return i;
        }
    }
    panic!(rt; "no such name")
}

/// Returns the words of the first line with this keyword.
fn behind<'a>(text: &'a [u8], keyword: &[u8]) -> Option<Words<'a>> {
    for line in Lines::new(text) {
        if let Some(words) = line.words_after(keyword) {
            return Some(words);
        }
    }
    None
}

// ---- names, level and p-values

fn names(rt: &(impl Abort + AllocGlobal), text: &[u8]) -> List<Text> {
    let mut names = List::new(rt.alloc());
    if let Some(words) = behind(text, b"hypotheses") {
        for word in words {
            let name = Text::copy(rt.alloc(), word).expect(rt, "no memory");
            names.push(name).expect(rt, "no memory");
        }
    }
    names
}

fn alpha(rt: &impl Abort, text: &[u8]) -> Fraction {
    match behind(text, b"alpha") {
        Some(mut words) => number(rt, word(rt, &mut words)),
        None => fraction(rt, (1, 20)),
    }
}

fn p_values(rt: &(impl Abort + AllocGlobal), text: &[u8]) -> List<Option<Fraction>> {
    let mut list = List::new(rt.alloc());
    if let Some(words) = behind(text, b"p") {
        for word in words {
            list.push(p_value(rt, word)).expect(rt, "no memory");
        }
    }
    list
}

fn p_value(rt: &impl Abort, word: &[u8]) -> Option<Fraction> {
    if word == b"-".as_slice() {
        return None;
    }
    Some(number(rt, word))
}

// ---- components

fn components(
    rt: &(impl Abort + AllocGlobal),
    text: &[u8],
    names: &[Text],
) -> List<DraftComponent> {
    let mut list = List::new(rt.alloc());
    for line in Lines::new(text) {
        if let Some(mut words) = line.words_after(b"component") {
            let label = word(rt, &mut words);
            let component = DraftComponent {
                share: number(rt, word(rt, &mut words)),
                weights: numbers(rt, words),
                edges: edges(rt, text, label, names),
            };
            list.push(component).expect(rt, "no memory");
        }
    }
    list
}

/// Returns the edges of the component with this label.
fn edges(
    rt: &(impl Abort + AllocGlobal),
    text: &[u8],
    label: &[u8],
    names: &[Text],
) -> List<DraftEdge> {
    let mut list = List::new(rt.alloc());
    for line in Lines::new(text) {
        if let Some(mut words) = line.words_after(b"edge") {
            if word(rt, &mut words) == label {
                list.push(edge(rt, words, names)).expect(rt, "no memory");
            }
        }
    }
    list
}

fn edge(rt: &(impl Abort + AllocGlobal), mut words: Words, names: &[Text]) -> DraftEdge {
    DraftEdge {
        from: position(rt, names, word(rt, &mut words)),
        to: position(rt, names, word(rt, &mut words)),
        entry: entry(rt, numbers(rt, words).as_slice()),
    }
}

/// Returns the entry with these coefficients by ascending power, 0 after the last.
pub fn entry(rt: &impl Abort, coefficients: &[Fraction]) -> Entry {
    let mut all = [fraction(rt, (0, 1)); 5];
    assert!(rt; coefficients.len() <= 5);
    for power in 0..coefficients.len() {
        all[power] = coefficients[power];
    }
    Entry::new(all)
}

// ---- stages

fn stages(rt: &(impl Abort + AllocGlobal), text: &[u8], names: &[Text]) -> Option<DraftStages> {
    let mut words = behind(text, b"stages")?;
    Some(DraftStages {
        count: whole(rt, word(rt, &mut words)),
        spend: spends(rt, text),
        arrivals: arrivals(rt, text, names),
    })
}

pub fn spends(rt: &(impl Abort + AllocGlobal), text: &[u8]) -> List<Spend> {
    let mut list = List::new(rt.alloc());
    for line in Lines::new(text) {
        if let Some(mut words) = line.words_after(b"spend") {
            word(rt, &mut words);
            let fractions = Spend::Shares(numbers(rt, words));
            list.push(fractions).expect(rt, "no memory");
        }
        if let Some(words) = line.words_after(b"table") {
            let table = Spend::Table(table(rt, text, words));
            list.push(table).expect(rt, "no memory");
        }
    }
    list
}

/// Returns the table that these words begin.
fn table(rt: &(impl Abort + AllocGlobal), text: &[u8], mut words: Words) -> List<SpendStep> {
    let mut steps = List::new(rt.alloc());
    let name = word(rt, &mut words);
    let times = words.next().unwrap_or(b"1");
    for _ in 0..whole(rt, times) {
        add_steps(rt, &mut steps, text, name);
    }
    steps
}

fn add_steps(
    rt: &(impl Abort + AllocGlobal),
    steps: &mut List<SpendStep>,
    text: &[u8],
    name: &[u8],
) {
    for line in Lines::new(text) {
        if let Some(mut words) = line.words_after(b"step") {
            if word(rt, &mut words) == name {
                let from = number(rt, word(rt, &mut words));
                let levels = numbers(rt, words);
                steps
                    .push(SpendStep { from, levels })
                    .expect(rt, "no memory");
            }
        }
    }
}

fn arrivals(rt: &(impl Abort + AllocGlobal), text: &[u8], names: &[Text]) -> List<Arrival> {
    let mut list = List::new(rt.alloc());
    for line in Lines::new(text) {
        if let Some(mut words) = line.words_after(b"arrive") {
            let arrival = Arrival {
                hypothesis: position(rt, names, word(rt, &mut words)),
                stage: whole(rt, word(rt, &mut words)) as usize,
                p: number(rt, word(rt, &mut words)),
            };
            list.push(arrival).expect(rt, "no memory");
        }
    }
    list
}

// ---- drafts

/// Returns the draft that the lines of two texts denote, those of `first` followed by those of `more`.
pub fn draft(rt: &(impl Abort + AllocGlobal), first: &str, more: &str) -> Draft {
    let mut text = List::new(rt.alloc());
    text.append(first.as_bytes()).expect(rt, "no memory");
    text.push(b'\n').expect(rt, "no memory");
    text.append(more.as_bytes()).expect(rt, "no memory");
    let text = text.as_slice();
    let names = names(rt, text);
    Draft {
        alpha: alpha(rt, text),
        p: p_values(rt, text),
        components: components(rt, text, names.as_slice()),
        stages: stages(rt, text, names.as_slice()),
        names,
    }
}
