//! Edge expressions and texts of entries by hand.
use crate::forms::checks::{Terms, expect, has_coefficients};
use edge_expression::{ExprFault, print_entry};
use entries::read_entry;
use field_core::List;
use std::alloc::Global;
use std::process::Abort;

/// Expressions, and their coefficients by ascending power, of which those past the last are 0.
const ENTRIES: &[(&str, &[Terms])] = table! {
    ("0", &[]),
    ("1/3", &[(1, 3)]),
    ("2/4", &[(1, 2)]),
    ("-1/2+1", &[(1, 2)]),
    ("1.5e-3", &[(3, 2000)]),
    ("1.", &[(1, 1)]),
    (".5E+1", &[(5, 1)]),
    ("8/2/2", &[(2, 1)]),
    ("8/2*2", &[(8, 1)]),
    ("1-2-3", &[(-4, 1)]),
    ("1-(2-3)", &[(2, 1)]),
    ("2(3)(4)", &[(24, 1)]),
    ("1000000000000000000", &[(1_000_000_000_000_000_000, 1)]),
    // Powers of epsilon.
    ("\\epsilon", &[(0, 1), (1, 1)]),
    ("1/2\\epsilon", &[(0, 1), (1, 2)]),
    ("\\epsilon^0", &[(1, 1)]),
    ("\\epsilon^4", &[(0, 1), (0, 1), (0, 1), (0, 1), (1, 1)]),
    ("1-\\epsilon", &[(1, 1), (-1, 1)]),
    ("(1-\\epsilon)/2", &[(1, 2), (-1, 2)]),
    ("(1+\\epsilon)(1-\\epsilon)", &[(1, 1), (0, 1), (-1, 1)]),
    ("(1+2\\epsilon)(3+4\\epsilon)", &[(3, 1), (10, 1), (8, 1)]),
    ("\\epsilon\\epsilon", &[(0, 1), (0, 1), (1, 1)]),
    ("(0*\\epsilon)*\\epsilon^4", &[]),
    ("(\\epsilon+1-\\epsilon)/2", &[(1, 2)]),
    ("1/(\\epsilon-\\epsilon+2)", &[(1, 2)]),
    // Blanks stand between tokens.
    (" 1 /\t2 \\epsilon ^ 2 ", &[(0, 1), (0, 1), (1, 2)]),
    ("\t( - 1.5 + 2 ) ", &[(1, 2)]),
    ("- 1 * ( 2 )", &[(-2, 1)]),
    // 32 parentheses are open at once.
    ("((((((((((((((((((((((((((((((((1/2))))))))))))))))))))))))))))))))", &[(1, 2)]),
};

fn is_worth(expression: &str, coefficients: &[Terms]) -> bool {
    match read_entry(expression.as_bytes()) {
        Ok(entry) => has_coefficients(&entry, coefficients),
        Err(_) => false,
    }
}

#[test]
fn expressions_have_values(rt: HostRuntime) {
    for (expression, coefficients) in ENTRIES {
        expect(&rt, is_worth(expression, coefficients), expression);
    }
}

/// Faults, and the texts that have them.
const FAULTS: &[(ExprFault, &[&str])] = table! {
    // No expression continues with this byte.
    (ExprFault::BadByte(0), &["", "*1", ")", "x", "^2"]),
    (ExprFault::BadByte(1), &["+", "1)", "(", "--1", "1^2", ".", "(*", "()", "\\E", "..5"]),
    (ExprFault::BadByte(2), &["1 5", "1+", "- -1", "1 e5", "1e"]),
    (ExprFault::BadByte(3), &["1. 5", "1e+", "1e+x", "(1 ", "\\epx"]),
    (ExprFault::BadByte(9), &["\\epsilon 2", "\\epsilon^"]),
    (ExprFault::BadByte(10), &["\\epsilon^2.5", "\\epsilon^22"]),
    // Expressions whose values are refused.
    (ExprFault::DivisorNotNumber, &["1/\\epsilon", "0/\\epsilon", "1/(1+\\epsilon)"]),
    (ExprFault::ZeroDivisor, &["1/0", "1/(\\epsilon-\\epsilon)", "0/0", "\\epsilon/0/\\epsilon"]),
    (ExprFault::Degree, &["\\epsilon^5", "0*\\epsilon^5", "\\epsilon^2*\\epsilon^3", "\\epsilon^9/0"]),
    (ExprFault::Part,
     &["1000000000000000001", "1/1000000000000000001", "2000000000000000000/2000000000000000000", "1000000000*10000000000",
       "1/999999999/9999999999", "1/999999999+1/9999999999", "1e39", "1e19*0", "1000000000000000000+1-1"]),
    // The first fault counts.
    (ExprFault::ZeroDivisor, &["1/0+1e30", "1/0*\\epsilon^5"]),
    (ExprFault::Part, &["1e30+1/0"]),
    (ExprFault::Degree, &["(1000000000\\epsilon^3)(10000000000\\epsilon^2)"]),
    (ExprFault::BadByte(3), &["1/0x"]),
    // A parenthesis past 32 that are open counts before any other byte.
    (ExprFault::Depth,
     &["(((((((((((((((((((((((((((((((((1/2)))))))))))))))))))))))))))))))))",
       "(((((((((((((((((((((((((((((((((1/0 5)))))))))))))))))))))))))))))))))"]),
    (ExprFault::BadByte(32), &["((((((((((((((((((((((((((((((((*())))))))))))))))))))))))))))))))"]),
};

fn has_fault(text: &str, fault: ExprFault) -> bool {
    match read_entry(text.as_bytes()) {
        Ok(_) => false,
        Err(found) => found == fault,
    }
}

/// Asserts that each text has this fault.
fn expect_faults(rt: &impl Abort, texts: &[&str], fault: ExprFault) {
    for text in texts {
        expect(rt, has_fault(text, fault), text);
    }
}

#[test]
fn texts_are_no_expressions(rt: HostRuntime) {
    for (fault, texts) in FAULTS {
        expect_faults(&rt, texts, *fault);
    }
}

/// Expressions, and the texts of their entries.
const PRINTED: &[(&str, &str)] = &[
    ("0*\\epsilon", "0"),
    ("2/4", "1/2"),
    ("1", "1"),
    ("1 \\epsilon", "\\epsilon"),
    ("\\epsilon^1/2", "1/2*\\epsilon"),
    ("2\\epsilon\\epsilon", "2*\\epsilon^2"),
    ("1-\\epsilon", "1-\\epsilon"),
    ("-1/2 - 2\\epsilon", "-1/2-2*\\epsilon"),
    ("(1-\\epsilon)/3", "1/3-1/3*\\epsilon"),
    (
        "\\epsilon^4-2\\epsilon^3+1/2+\\epsilon^2",
        "1/2+\\epsilon^2-2*\\epsilon^3+\\epsilon^4",
    ),
];

/// Whether the entry of an expression is printed as this text.
fn is_printed(alloc: Global, expression: &str, text: &str) -> bool {
    let Ok(entry) = read_entry(expression.as_bytes()) else {
        return false;
    };
    let mut printed = List::new(alloc);
    print_entry(&entry, &mut printed).is_ok() && printed.as_slice() == text.as_bytes()
}

#[test]
fn entries_are_printed(rt: HostRuntime) {
    for (expression, text) in PRINTED {
        expect(&rt, is_printed(rt.alloc(), expression, text), expression);
    }
}
