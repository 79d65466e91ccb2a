//! The lists of the command line: names, and addresses.
ghost use Rattle.std.specs.Prelude.{◌≡◌, false, IfOk, IfErr, Ok, map, option_map, filter_map, position};
ghost use Rattle.rv_text.specs.Hexadecimal.{word_of};
ghost use Rattle.rv_text.specs.Pieces.{pieces_of};
ghost use Rattle.rv_engines.specs.Campaigns as spec;
ghost use Rattle.rv_faults.specs.CommandFault.{IsTold, refusal, fails_by, is_read, is_write, is_thread};

use rv_elf::Image;
use rv_faults::command::CommandFault;
use rv_memory::store::NoMemory;
use rv_prune::named_bytes::NamedBytes;
use rv_prune::names::{NamesFault, ranges};
use rv_text::hexadecimal::read_word;
use std::alloc::{AllocError, Global};

/// The elements of a text, with a comma between two of them.
fn split<'a>(alloc: Global, text: &'a str) -> Result<Vec<&'a str>, NoMemory>
    ensures { IfOk result (λ found. map (λ element. element.now) found.items ≡ pieces_of 44 text.entry.now) }
{
    let mut found = Vec::new(alloc);
    let mut rest = text;
    while let Some((element, after)) = rest.split_once(',') {
        found.push(element)?;
        rest = after;
    }
    found.push(rest)?;
    Ok(found)
}

/// The elements of a list, if it is given.
fn elements<'a>(alloc: Global, list: Option<&'a str>) -> Result<Vec<&'a str>, NoMemory>
    ensures { IfOk result (λ found. map (λ element. element.now) found.items
        ≡ spec.elements (option_map (λ text. text.now) list.entry)) }
{
    match list {
        None => Ok(Vec::new(alloc)),
        Some(text) => split(alloc, text),
    }
}

/// The place of the first element that is no address.
fn first_malformed(given: &[&str]) -> Option<usize>
    ensures { result ≡ position (λ element. spec.is_malformed element.now) given.now }
{
    given
        .iter()
        .position(|element| read_word(element.as_bytes()).is_none())
}

/// The words that the elements write.
fn words(alloc: Global, given: &[&str]) -> Result<Vec<u32>, AllocError>
    ensures { IfOk result (λ words. words.items ≡ filter_map (λ element. word_of element.now) given.now) }
{
    given
        .iter()
        .filter_map(|element| read_word(element.as_bytes()))
        .collect(alloc)
}

/// The addresses of the list of those that are no sites.
pub fn read_skipped<'a>(alloc: Global, list: Option<&'a str>) -> Result<Vec<u32>, CommandFault<'a>>
    ensures ok { IfOk result (λ found. spec.skipped (spec.elements (option_map (λ text. text.now) list.entry))
        ≡ Ok found.items) }
    ensures err { IfErr result (λ fault.
        IsTold (spec.skipped (spec.elements (option_map (λ text. text.now) list.entry))) (refusal fault)) }
    ensures reader { fails_by is_read result ≡ false }
    ensures writer { fails_by is_write result ≡ false }
    ensures thread { fails_by is_thread result ≡ false }
{
    let given = elements(alloc, list)?;
    match first_malformed(&given) {
        Some(place) => Err(CommandFault::Skip(given[place])),
        None => Ok(words(alloc, &given)?),
    }
}

/// The ranges that the names of the list stand for.
fn named_ranges<'a>(
    alloc: Global,
    image: &Image,
    list: Option<&'a str>,
) -> Result<Vec<(u32, u32)>, CommandFault<'a>>
    ensures ok { IfOk result (λ found. spec.listed image.now (spec.elements (option_map (λ text. text.now) list.entry))
        ≡ Ok found.items) }
    ensures err { IfErr result (λ fault.
        IsTold (spec.listed image.now (spec.elements (option_map (λ text. text.now) list.entry))) (refusal fault)) }
    ensures reader { fails_by is_read result ≡ false }
    ensures writer { fails_by is_write result ≡ false }
    ensures thread { fails_by is_thread result ≡ false }
{
    let names = elements(alloc, list)?;
    match ranges(alloc, image, &names) {
        Ok(found) => Ok(found),
        Err(NamesFault::NoMemory) => Err(CommandFault::from(NoMemory)),
        Err(NamesFault::Unknown(place)) => Err(CommandFault::Name(names[place])),
    }
}

/// The bytes that the names of the list stand for.
pub fn read_named<'a>(
    alloc: Global,
    image: &Image,
    list: Option<&'a str>,
) -> Result<NamedBytes, CommandFault<'a>>
    ensures ok { IfOk result (λ found. spec.listed image.now (spec.elements (option_map (λ text. text.now) list.entry))
        ≡ Ok found) }
    ensures err { IfErr result (λ fault.
        IsTold (spec.listed image.now (spec.elements (option_map (λ text. text.now) list.entry))) (refusal fault)) }
    ensures reader { fails_by is_read result ≡ false }
    ensures writer { fails_by is_write result ≡ false }
    ensures thread { fails_by is_thread result ≡ false }
{
    let listed = match named_ranges(alloc, image, list) {
        Ok(listed) => listed,
        Err(fault) => return Err(fault),
    };
    match NamedBytes::of(alloc, listed) {
        Ok(found) => Ok(found),
        Err(NoMemory) => Err(CommandFault::from(NoMemory)),
    }
}
