//! The words of the command `merge`. They are read without `clap`, since the job keeps its tables as they stand in the
//! line.
ghost use Rattle.std.specs.Prelude.{◌≡◌, ◌<◌, ◌≤◌, true, length, option_map};
ghost use Rattle.rv_command.specs.Command as spec;
ghost use Rattle.rv_command.specs.MergeLine as line;

use super::Job;
use crate::arguments::{TablePath, TablePaths};

/// `merge` with the words after its name: one table or more, `--expect TABLE` or `--expect=TABLE` before them or behind, and `--gaps` as the first
/// word or the last.
#[tactic(auto, using(crate::proofs::TextLists::take_texts, crate::proofs::TextLists::drop_texts))]
pub fn merge_of<'a>(words: &'a [&'a str]) -> Option<Job<'a>>
    ensures { option_map spec.asked result ≡ spec.merge_at (spec.texts words.entry.now) }
{
    if gaps_at(words, 0) {
        let (_, rest) = words.split_at(1);
        return tables_of(rest, true);
    }
    let last = words.len().saturating_sub(1);
    if gaps_at(words, last) {
        let (rest, _) = words.split_at(last);
        return tables_of(rest, true);
    }
    tables_of(words, false)
}

/// Whether the word of that place is `--gaps`.
fn gaps_at(words: &[&str], place: usize) -> bool
    ensures gaps { result ≡ line.gaps_at place (spec.texts words.now) }
    ensures within { result ≡ true → place < length words.now }
{
    match words.get(place) {
        Some(word) => *word == "--gaps",
        None => false,
    }
}

/// The job of the words without `--gaps`.
#[tactic(auto, using(crate::proofs::TextLists::take_texts, crate::proofs::TextLists::drop_texts))]
fn tables_of<'a>(words: &'a [&'a str], gaps: bool) -> Option<Job<'a>>
    ensures { option_map spec.asked result ≡ spec.merge_with gaps (spec.texts words.entry.now) }
{
    let (tables, rest) = words.split_at(tables_before(words));
    if tables.is_empty() {
        return option_first(words, gaps);
    }
    Some(Job::Merge {
        tables: TablePaths(tables),
        expected: option_last(rest)?,
        gaps,
    })
}

/// The job of words that the option begins, with the tables behind it.
fn option_first<'a>(words: &'a [&'a str], gaps: bool) -> Option<Job<'a>>
    ensures { option_map spec.asked result ≡ spec.option_first gaps (spec.texts words.entry.now) }
{
    let (expected, tables) = expected_first(words)?;
    if !are_tables(tables) {
        return None;
    }
    Some(Job::Merge {
        tables: TablePaths(tables),
        expected: Some(expected),
        gaps,
    })
}

/// What is expected, by the words behind the tables.
fn option_last<'a>(words: &'a [&'a str]) -> Option<Option<TablePath<'a>>>
    ensures { option_map (λ expected. option_map (λ path. path.0.now) expected) result ≡ line.option_last (spec.texts words.entry.now) }
{
    if words.is_empty() {
        return Some(None);
    }
    match expected_first(words)? {
        (expected, []) => Some(Some(expected)),
        _ => None,
    }
}

/// The value of the option that begins the words, in either form, and the words behind it.
fn expected_first<'a>(words: &'a [&'a str]) -> Option<(TablePath<'a>, &'a [&'a str])>
    ensures { option_map (λ found. (found.0.0.now, spec.texts found.1.now)) result ≡ line.expected_first (spec.texts words.entry.now) }
{
    match words {
        [option, rest @ ..] if *option == "--expect" => value_first(rest),
        [option, rest @ ..] => Some((TablePath(joined_value(*option)?), rest)),
        [] => None,
    }
}

/// The value behind the word `--expect`, and the words after it.
fn value_first<'a>(words: &'a [&'a str]) -> Option<(TablePath<'a>, &'a [&'a str])>
    ensures { option_map (λ found. (found.0.0.now, spec.texts found.1.now)) result ≡ line.value_first (spec.texts words.entry.now) }
{
    match words {
        [value, rest @ ..] if !is_dashed(*value) => Some((TablePath(*value), rest)),
        _ => None,
    }
}

/// The value in a word `--expect=TABLE`.
fn joined_value(word: &str) -> Option<&str>
    ensures { option_map (λ value. value.now) result ≡ line.joined_value word.now }
{
    word.strip_prefix("--expect=")
}

/// Whether the words are tables, one at least.
fn are_tables(words: &[&str]) -> bool
    ensures { result ≡ line.are_tables (spec.texts words.now) }
{
    !words.is_empty() && tables_before(words) == words.len()
}

/// How many words stand before the first option.
fn tables_before(words: &[&str]) -> usize
    ensures count { result ≡ line.tables_before (spec.texts words.now) }
    ensures within { result ≤ length words.now }
{
    for (place, word) in words.iter().enumerate() {
        if is_dashed(*word) {
            return place;
        }
    }
    words.len()
}

/// Whether the word is an option, or would be one.
fn is_dashed(word: &str) -> bool
    ensures { result ≡ line.is_dashed word.now }
{
    matches!(word.as_bytes(), [b'-', _, ..])
}
