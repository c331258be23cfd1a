//! Selections of the components of a vector (OpenCL 1.2, section 6.1.7).

ghost use Rattle.std.specs.Prelude.{◌≡◌, ◌+◌, ◌*◌, ◌^◌, ◌<◌, option_map, IfOk, map};
ghost use Rattle.cl_short_vec.specs.Types as spec;

use std::alloc::Global;
use wg_num::{Memory, push};

/// The name behind the point of a selection, from its own words; `None` where they are those of no selection.
#[tactic(auto, unfolding(crate::specs::Types::selection_in))]
pub fn selection_of(word: &[u8]) -> Option<&[u8]>
    ensures { option_map (λ n. n.now) result ≡ spec.selection_in word.now }
{
    word.strip_prefix(". ".as_bytes())
}

/// So many numbers from one on, each so much above the one before.
fn numbers(alloc: Global, first: usize, by: usize, count: usize) -> Result<Vec<usize>, Memory>
    requires room { first + by * count < 2 ^ 64 }
    ensures { IfOk result (λ v. v.items ≡ spec.numbers first by count) }
{
    let mut list = Vec::new(alloc);
    let mut left = count;
    let mut next = first;
    while left > 0 {
        push(&mut list, next)?;
        left -= 1;
        next += by;
    }
    Ok(list)
}

/// The numbers of all components of a vector of that many, in order.
pub fn all_components(alloc: Global, count: usize) -> Result<Vec<usize>, Memory>
    ensures { IfOk result (λ v. v.items ≡ spec.numbers 0 1 count) }
{
    numbers(alloc, 0, 1, count)
}

fn letter(byte: u8) -> Option<usize>
    ensures { result ≡ spec.letter byte }
{
    match byte {
        b'x' => Some(0),
        b'y' => Some(1),
        b'z' => Some(2),
        b'w' => Some(3),
        _ => None,
    }
}

fn digit(byte: u8) -> Option<usize>
    ensures { result ≡ spec.digit byte }
{
    if b'0' <= byte && byte <= b'9' {
        return Some(usize::from(byte - b'0'));
    }
    if b'a' <= byte && byte <= b'f' {
        return Some(usize::from(byte - b'a' + 10));
    }
    if b'A' <= byte && byte <= b'F' {
        return Some(usize::from(byte - b'A' + 10));
    }
    None
}

/// The component that a byte names, as a hexadecimal digit or as a letter.
fn component(digits: bool, byte: u8) -> Option<usize>
    ensures { result ≡ spec.component digits byte }
{
    if digits { digit(byte) } else { letter(byte) }
}

/// The component that each byte names; `None` where one of them names none.
fn named(alloc: Global, digits: bool, bytes: &[u8]) -> Result<Option<Vec<usize>>, Memory>
    ensures { IfOk result (λ o. option_map (λ v. v.items) o ≡ spec.named digits bytes.now) }
{
    let mut list = Vec::new(alloc);
    for byte in bytes {
        match component(digits, *byte) {
            Some(number) => push(&mut list, number)?,
            None => return Ok(None),
        }
    }
    Ok(Some(list))
}

/// What the letters of a name select, or its digits behind an `s`.
fn spelled_out(alloc: Global, count: usize, name: &[u8]) -> Result<Option<Vec<usize>>, Memory>
    ensures { IfOk result (λ o. option_map (λ v. v.items) o ≡ spec.spelled_out count name.now) }
{
    match name {
        [] => Ok(None),
        [first, digits @ ..] => {
            if *first == b's' {
                return named(alloc, true, digits);
            }
            if count <= 4 {
                return named(alloc, false, name);
            }
            Ok(None)
        }
    }
}

fn named_in(alloc: Global, count: usize, name: &[u8]) -> Result<Option<Vec<usize>>, Memory>
    ensures { IfOk result (λ o. option_map (λ v. v.items) o ≡ spec.named_in count name.now) }
{
    let half = count / 2;
    if name == "lo".as_bytes() {
        return Ok(Some(numbers(alloc, 0, 1, half)?));
    }
    if name == "hi".as_bytes() {
        return Ok(Some(numbers(alloc, half, 1, half)?));
    }
    if name == "even".as_bytes() {
        return Ok(Some(numbers(alloc, 0, 2, half)?));
    }
    if name == "odd".as_bytes() {
        return Ok(Some(numbers(alloc, 1, 2, half)?));
    }
    spelled_out(alloc, count, name)
}

fn all_below(limit: usize, numbers: &[usize]) -> bool
    ensures { result ≡ spec.all_below limit numbers.now }
{
    for number in numbers {
        if *number >= limit {
            return false;
        }
    }
    true
}

/// Whether a selection may name so many components.
fn is_width(count: usize) -> bool
    ensures { result ≡ spec.is_width count }
{
    count == 1 || count == 2 || count == 4 || count == 8 || count == 16
}

/// The components that a name selects in a vector of that many, in order; `None` where it selects nothing there.
/// `Memory` where memory was refused or a number has no room.
#[tactic(auto, unfolding(crate::specs::Types::selected))]
pub fn selected(alloc: Global, count: usize, name: &[u8]) -> Result<Option<Vec<usize>>, Memory>
    ensures { IfOk result (λ o. option_map (λ v. v.items) o ≡ spec.selected count name.now) }
{
    match named_in(alloc, count, name)? {
        Some(numbers) => {
            if all_below(count, &numbers) && is_width(numbers.len()) {
                return Ok(Some(numbers));
            }
            Ok(None)
        }
        None => Ok(None),
    }
}

/// The components with these numbers among others; 0 where there is none of that number.
pub fn picked(alloc: Global, components: &[usize], numbers: &[usize]) -> Result<Vec<usize>, Memory>
    ensures { IfOk result (λ v. v.items ≡ spec.picked components.now numbers.now) }
{
    let mut list = Vec::new(alloc);
    for number in numbers {
        let component = components.get(*number).copied().unwrap_or(0);
        push(&mut list, component)?;
    }
    Ok(list)
}

fn is_one_of(number: usize, numbers: &[usize]) -> bool
    ensures { result ≡ spec.is_one_of number numbers.now }
{
    for other in numbers {
        if number == *other {
            return true;
        }
    }
    false
}

/// Whether no number comes twice.
pub fn all_differ(numbers: &[usize]) -> bool
    ensures { result ≡ spec.all_differ numbers.now }
{
    let mut rest = numbers;
    while let [number, others @ ..] = rest {
        if is_one_of(*number, others) {
            return false;
        }
        rest = others;
    }
    true
}
