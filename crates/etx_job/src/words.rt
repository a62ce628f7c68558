//! The words of the command line.
ghost use Rattle.std.specs.Prelude.{◌≡◌, ◌≤◌, Some, None, if◌then◌else◌, length, IfOk, IfSome, map, string_bytes};
ghost use Rattle.std.specs.List.{list_all};
ghost use Rattle.etx_job.specs.Words.{is_file_word, log_name, is_digit, number_of, budget_in, budget_joined, budget_apart, job_with, or_else, job_behind, job_asked};

use etx_lists::Bytes;
use etx_matter::{GREATEST_BUDGET, Job};
use std::alloc::{AllocError, Global};

/// The name of a job's log.
pub fn name_log(alloc: Global, file: &[u8]) -> Result<Bytes, AllocError>
    ensures { IfOk result (λ name. name ≡ log_name file.now) }
{
    let mut name = Bytes::from_slice(alloc, etx_outside::names::job_name(file))?;
    name.extend_from_slice(b".log")?;
    Ok(name)
}

fn is_file_word(word: &[u8]) -> bool
    ensures { result ≡ is_file_word word.now }
{
    etx_outside::names::is_good(word) && !matches!(word, [b'-', ..])
}

/// The steps that a job may take where no word says how many.
const DEFAULT_BUDGET: u64 = 100_000_000;

/// The digits that a word with a number of steps has at most.
const MOST_DIGITS: usize = 13;

/// The number that decimal digits write. `None` exactly where one of the bytes is no digit.
fn read_number(digits: &[u8]) -> Option<u64>
    requires { length digits.now ≤ 13 }
    ensures { result ≡ if list_all is_digit digits.now then Some (number_of digits.now) else None }
{
    let mut number: u64 = 0;
    for digit in digits {
        let digit = *digit;
        if digit < b'0' || digit > b'9' {
            return None;
        }
        number = number * 10 + (digit - b'0') as u64;
    }
    Some(number)
}

/// The steps that a word gives. `None` exactly where it isn't of 1 to [`MOST_DIGITS`] digits, or the number not from 1 to 2^40.
fn read_budget(word: &[u8]) -> Option<u64>
    ensures value { result ≡ budget_in word.now }
    ensures bounded { IfSome result (λ budget. budget ≤ 1099511627776) }
{
    if word.len() > MOST_DIGITS {
        return None;
    }
    let budget = read_number(word)?;
    if budget >= 1 && budget <= GREATEST_BUDGET {
        Some(budget)
    } else {
        None
    }
}

/// The steps in one word, `--steps=N`.
fn read_budget_joined(word: &[u8]) -> Option<u64>
    ensures value { result ≡ budget_joined word.now }
    ensures bounded { IfSome result (λ budget. budget ≤ 1099511627776) }
{
    match word.strip_prefix(b"--steps=".as_slice()) {
        Some(number) => read_budget(number),
        None => None,
    }
}

/// The steps in two words, `--steps` and N.
fn read_budget_apart(option: &[u8], number: &[u8]) -> Option<u64>
    ensures value { result ≡ budget_apart option.now number.now }
    ensures bounded { IfSome result (λ budget. budget ≤ 1099511627776) }
{
    if option == b"--steps".as_slice() {
        read_budget(number)
    } else {
        None
    }
}

/// The job of a file and of steps. `None` exactly where there are no steps, or the word can't name a file.
fn make_job(alloc: Global, file: &[u8], budget: Option<u64>) -> Result<Option<Job>, AllocError>
    requires { IfSome budget (λ budget. budget ≤ 1099511627776) }
    ensures { IfOk result (λ job. job ≡ job_with file.now budget) }
{
    match budget {
        Some(budget) if is_file_word(file) => {
            let name = etx_outside::names::with_extension(alloc, file, b".tex")?;
            Ok(Some(Job::new(name, budget)))
        }
        _ => Ok(None),
    }
}

/// The job that two words behind `alone` ask for: FILE and `--steps=N`, in either order.
fn find_by_two(alloc: Global, first: &[u8], second: &[u8]) -> Result<Option<Job>, AllocError>
    ensures { IfOk result (λ job. job ≡ or_else (job_with first.now (budget_joined second.now)) (job_with second.now (budget_joined first.now))) }
{
    if let Some(job) = make_job(alloc, first, read_budget_joined(second))? {
        return Ok(Some(job));
    }
    make_job(alloc, second, read_budget_joined(first))
}

/// The job that three words behind `alone` ask for: FILE, and `--steps N` behind it or before it.
fn find_by_three(
    alloc: Global,
    first: &[u8],
    second: &[u8],
    third: &[u8],
) -> Result<Option<Job>, AllocError>
    ensures { IfOk result (λ job. job ≡ or_else (job_with first.now (budget_apart second.now third.now)) (job_with third.now (budget_apart first.now second.now))) }
{
    if let Some(job) = make_job(alloc, first, read_budget_apart(second, third))? {
        return Ok(Some(job));
    }
    make_job(alloc, third, read_budget_apart(first, second))
}

/// The job that the words behind `alone` ask for.
fn find_behind(alloc: Global, words: &[String]) -> Result<Option<Job>, AllocError>
    ensures { IfOk result (λ job. job ≡ job_behind (map string_bytes words.now)) }
{
    match words {
        [] => Ok(None),
        [file] => make_job(alloc, file.as_bytes(), Some(DEFAULT_BUDGET)),
        [first, second] => find_by_two(alloc, first.as_bytes(), second.as_bytes()),
        [first, second, third] => {
            find_by_three(alloc, first.as_bytes(), second.as_bytes(), third.as_bytes())
        }
        [_, _, _, _, ..] => Ok(None),
    }
}

/// The job that the words ask for. `None` exactly where they are of no known form.
pub fn find_job(alloc: Global, words: &[String]) -> Result<Option<Job>, AllocError>
    ensures { IfOk result (λ job. job ≡ job_asked (map string_bytes words.now)) }
{
    match words {
        [command, words @ ..] if command.as_bytes() == b"alone".as_slice() => {
            find_behind(alloc, words)
        }
        _ => Ok(None),
    }
}
