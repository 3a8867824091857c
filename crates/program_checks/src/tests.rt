mod cases;
mod gates;
mod lines;
mod real_files;
mod runs;
mod words;

use cases::{ANSWERED, FAILED, FAULTY_WORDS, REFUSED};
use runs::{check, check_all};
use std::test::Fail;

#[test]
fn answers_are_as_worked_out(rt: HostRuntime) -> Result<(), Fail> {
    check_all(&rt, rt.alloc(), &ANSWERED)
}

#[test]
fn other_words_and_flawed_files_are_refused(rt: HostRuntime) -> Result<(), Fail> {
    for words in FAULTY_WORDS.lines() {
        let refused = "none\n2 | agglo: words not understood;";
        check(&rt, rt.alloc(), words, refused)?;
    }
    check_all(&rt, rt.alloc(), &REFUSED)
}

#[test]
fn faults_leave_a_prefix(rt: HostRuntime) -> Result<(), Fail> {
    check_all(&rt, rt.alloc(), &FAILED)
}
