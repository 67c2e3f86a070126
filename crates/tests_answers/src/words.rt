//! What words request, with the values that they give.
use command_words::{CaseFormat, CaseTask, Command, read_study, read_words};
use field_core::NoMemory;
use sequential::Priority;
use std::alloc::Global;
use std::process::Abort;
use std::test::Fail;

/// What words request for a case: the task, and the level if they give one.
type Wanted = Option<(CaseTask, Option<(i128, i128)>)>;

/// Returns these words, as the program is given them.
fn words_of(alloc: Global, words: &[&str]) -> Result<Vec<String>, NoMemory> {
    let mut copies = Vec::new(alloc);
    for word in words {
        copies.push(String::from_str(alloc, word)?)?;
    }
    Ok(copies)
}

/// Returns the task on a case, and the parts of the level if the case is a sheet.
fn on_case(command: &Command) -> Wanted {
    match command {
        Command::OnCase(CaseFormat::Csv(alpha), task) => {
            let alpha = alpha.ratio();
            Some((*task, Some((alpha.num(), alpha.den()))))
        }
        Command::OnCase(_, task) => Some((*task, None)),
        Command::Check { .. } | Command::Catalogue(_) | Command::Sample { .. } | Command::Help => {
            None
        }
    }
}

/// Asserts that these words are accepted, and request this for a case.
fn expect(rt: &impl Abort, alloc: Global, words: &[&str], wanted: Wanted) -> Result<(), NoMemory> {
    let words = words_of(alloc, words)?;
    match read_words(words.as_slice()) {
        Ok(command) => assert!(rt; on_case(&command) == wanted),
        Err(n) => panic!(rt; "word {n}"),
    }
    Ok(())
}

const VALUES: &[(&[&str], Wanted)] = table! {
    (&["help"], None),
    (&["test"], Some((CaseTask::Test(Priority::First), None))),
    (&["stages", "--form=json"], Some((CaseTask::Stages, None))),
    (&["test", "--form=json", "--priority", "last"], Some((CaseTask::Test(Priority::Last), None))),
    (&["evidence", "--priority=ratio"], Some((CaseTask::Evidence(Priority::Ratio), None))),
    (&["test", "--alpha", "0.05", "--priority", "ratio", "--form", "csv"],
     Some((CaseTask::Test(Priority::Ratio), Some((1, 20))))),
    (&["test", "--form=csv", "--alpha=-6e-1"], Some((CaseTask::Test(Priority::First), Some((-3, 5))))),
};

#[test]
fn words_give_values(rt: HostRuntime) -> Result<(), Fail> {
    for (words, wanted) in VALUES {
        expect(&rt, rt.alloc(), words, *wanted)?;
    }
    Ok(())
}

/// Returns the number, from 1, of the word at which the reading fails.
fn failing_word(alloc: Global, words: &[&str]) -> Result<Option<usize>, NoMemory> {
    let words = words_of(alloc, words)?;
    match read_words(words.as_slice()) {
        Ok(_) => Ok(None),
        Err(n) => Ok(Some(n)),
    }
}

#[test]
fn words_fail_at_a_word(rt: HostRuntime) -> Result<(), Fail> {
    let alloc = rt.alloc();
    let rows: &[(&[&str], usize)] = &[
        (&[], 1),
        (&["test", "--form", "xml"], 3),
        (&["test", "--form", "csv"], 4),
        (&["test", "--alpha", "1"], 2),
    ];
    for (words, number) in rows {
        assert!(rt; failing_word(alloc, words)? == Some(*number));
    }
    Ok(())
}

/// Returns the place of the word that names a file.
fn file_of(alloc: Global, words: &[&str]) -> Result<Option<usize>, NoMemory> {
    let words = words_of(alloc, words)?;
    match read_words(words.as_slice()) {
        Ok(command) => Ok(command.file()),
        Err(_) => Ok(None),
    }
}

#[test]
fn checks_have_a_file(rt: HostRuntime) -> Result<(), Fail> {
    let alloc = rt.alloc();
    let rows: &[(&[&str], Option<usize>)] = &[
        (&["check", "proof.txt"], Some(1)),
        (&["check", ""], Some(1)),
        (&["check", "--form", "csv", "-", "--alpha=1/20"], Some(3)),
        (&["check", "--form=json", "check"], Some(2)),
        (&["check"], None),
        (&["check", "a", "b"], None),
        (&["check", "--file", "a"], None),
        (&["test"], None),
    ];
    for (words, place) in rows {
        assert!(rt; file_of(alloc, words)? == *place);
    }
    Ok(())
}

/// Returns the size and the seed of a sample.
fn sample_of(alloc: Global, words: &[&str]) -> Result<Option<(u64, u64)>, NoMemory> {
    let words = words_of(alloc, words)?;
    match read_words(words.as_slice()) {
        Ok(Command::Sample { size, seed }) => Ok(Some((size, seed))),
        _ => Ok(None),
    }
}

#[test]
fn samples_have_sizes_and_seeds(rt: HostRuntime) -> Result<(), Fail> {
    let alloc = rt.alloc();
    let least = sample_of(
        alloc,
        &["sample", "--seed=0", "--size", "00000000000000000064"],
    )?;
    assert!(rt; least == Some((64, 0)));
    let greatest = sample_of(
        alloc,
        &["sample", "--size=1", "--seed=18446744073709551615"],
    )?;
    assert!(rt; greatest == Some((1, u64::MAX)));
    let above = sample_of(
        alloc,
        &["sample", "--size=1", "--seed=18446744073709551616"],
    )?;
    assert!(rt; above == None);
    Ok(())
}

/// What words request of a study: whether its case is JSON, the place of the word that names the file of its commands, and the
/// path of its looks.
type Study<'a> = (bool, usize, Option<&'a str>);

/// Asserts what these words request of a study, or the number of the word at which the reading fails.
fn expect_study(
    rt: &impl Abort,
    alloc: Global,
    words: &[&str],
    wanted: Result<Study<'_>, usize>,
) -> Result<(), NoMemory> {
    let words = words_of(alloc, words)?;
    let read = match read_study(words.as_slice()) {
        Ok(call) => Ok((
            matches!(&call.format, CaseFormat::Json),
            call.file,
            call.store,
        )),
        Err(n) => Err(n),
    };
    assert!(rt; read == wanted);
    Ok(())
}

const STUDIES: &[(&[&str], Study<'static>)] = table! {
    (&["study", "looks.txt"], (false, 1, None)),
    (&["study", "--store", "a.db", "-"], (false, 3, Some("a.db"))),
    (&["study", "a", "--store=", "--form=json"], (true, 1, Some(""))),
    (&["study", "--store=a=b", "c"], (false, 2, Some("a=b"))),
    (&["study", "--store", "--form=json", "a"], (false, 3, Some("--form=json"))),
    (&["study", "--form", "text", "study"], (false, 3, None)),
};

#[test]
fn studies_have_files(rt: HostRuntime) -> Result<(), Fail> {
    for (words, wanted) in STUDIES {
        expect_study(&rt, rt.alloc(), words, Ok(*wanted))?;
    }
    Ok(())
}

const FAILED_STUDIES: &[(&[&str], usize)] = &[
    (&[], 1),
    (&["test"], 1),
    (&["study"], 2),
    (&["study", "a", "--form=csv"], 3),
    (&["study", "a", "--alpha=1"], 3),
    (&["study", "a", "--store", "b", "--store=c"], 5),
    (&["study", "a", "--store"], 4),
];

#[test]
fn words_of_studies_that_fail(rt: HostRuntime) -> Result<(), Fail> {
    for (words, word) in FAILED_STUDIES {
        expect_study(&rt, rt.alloc(), words, Err(*word))?;
    }
    Ok(())
}

#[test]
fn a_study_is_no_other_command(rt: HostRuntime) -> Result<(), Fail> {
    let words = words_of(rt.alloc(), &["study", "looks.txt"])?;
    match read_words(words.as_slice()) {
        Ok(_) => panic!(rt; "another command"),
        Err(n) => assert!(rt; n == 1),
    }
    Ok(())
}
