// Log paths, of the parts of a row.

use crate::inlets::inlets;
use crate::rules::{LINE, columns, contains, keys, rule, tagged};
use sg_filter::Expr;
use sg_tree::{DestRule, Element, Forest, Path};
use std::alloc::{AllocError, Global};

/// Elements and statements that no part behind them has taken yet.
#[derive(Drop)]
struct Stack {
    elements: Vec<Element>,
    paths: Vec<Path>,
}

// Numbers; `-` is none of them.
fn numbers(alloc: Global, text: &str, between: char) -> Option<Vec<u32>> {
    let mut all = Vec::new(alloc);
    if text == "-" || push_numbers(&mut all, text, between) {
        Some(all)
    } else {
        None
    }
}

fn push_numbers(all: &mut Vec<u32>, text: &str, between: char) -> bool {
    for word in text.split(between) {
        let Ok(number) = word.parse::<u32>() else {
            return false;
        };
        if all.push(number).is_err() {
            return false;
        }
    }
    true
}

// The last so many, taken off the list, in their order; none where there aren't so many.
fn last<T: Drop>(list: &mut Vec<T>, count: &str) -> Option<Vec<T>> {
    let Ok(count) = count.parse::<usize>() else {
        return None;
    };
    if count > list.len() {
        return None;
    }
    let from = list.len() - count;
    list.split_off(from).ok()
}

// Whether each letter is that of a flag; `-` is none.
fn are_flags(text: &str) -> bool {
    for letter in text.chars() {
        if !matches!(letter, 'f' | 'b' | 'c' | 'w' | 'd') {
            return text == "-";
        }
    }
    !text.is_empty()
}

fn path_of(elements: Vec<Element>, embedded: Vec<Path>, sources: Vec<u32>, flags: &str) -> Path {
    Path {
        sources,
        elements,
        embedded,
        is_final: flags.contains('f'),
        fallback: flags.contains('b'),
        catchall: flags.contains('c'),
        flow: flags.contains('w'),
        drop_unmatched: flags.contains('d'),
        line: LINE,
    }
}

fn push_path(stack: &mut Stack, path: Option<Path>) -> bool {
    match path {
        Some(path) => stack.paths.push(path).is_ok(),
        None => false,
    }
}

fn push_element(stack: &mut Stack, element: Option<Element>) -> bool {
    match element {
        Some(element) => stack.elements.push(element).is_ok(),
        None => false,
    }
}

fn channel_of(alloc: Global, stack: &mut Stack, count: &str, flags: &str) -> Option<Path> {
    match last(&mut stack.elements, count) {
        Some(elements) => Some(path_of(elements, Vec::new(alloc), Vec::new(alloc), flags)),
        None => None,
    }
}

fn put_channel(alloc: Global, stack: &mut Stack, rest: &str) -> bool {
    match rest.split_once(' ') {
        Some((count, flags)) if are_flags(flags) => {
            let channel = channel_of(alloc, stack, count, flags);
            push_path(stack, channel)
        }
        _ => false,
    }
}

// The words of a statement: its sources, how many elements and embedded statements it has, and its flags.
#[derive(Clone, Copy, Drop)]
struct ForestWords<'r> {
    sources: &'r str,
    count: &'r str,
    logs: &'r str,
    flags: &'r str,
}

fn words_of(rest: &str) -> Option<ForestWords<'_>> {
    let Some((sources, rest)) = rest.split_once(' ') else {
        return None;
    };
    let Some((count, rest)) = rest.split_once(' ') else {
        return None;
    };
    match rest.split_once(' ') {
        Some((logs, flags)) if are_flags(flags) => Some(ForestWords {
            sources,
            count,
            logs,
            flags,
        }),
        _ => None,
    }
}

fn log_of(alloc: Global, stack: &mut Stack, words: ForestWords<'_>) -> Option<Path> {
    let Some(sources) = numbers(alloc, words.sources, ',') else {
        return None;
    };
    let Some(elements) = last(&mut stack.elements, words.count) else {
        return None;
    };
    match last(&mut stack.paths, words.logs) {
        Some(embedded) => Some(path_of(elements, embedded, sources, words.flags)),
        None => None,
    }
}

fn put_log(alloc: Global, stack: &mut Stack, rest: &str) -> bool {
    match words_of(rest) {
        Some(words) => {
            let log = log_of(alloc, stack, words);
            push_path(stack, log)
        }
        None => false,
    }
}

fn branch_of(
    alloc: Global,
    stack: &mut Stack,
    text: &str,
    count: &str,
) -> Option<(Expr, Vec<Element>)> {
    let Ok(test) = contains(alloc, text) else {
        return None;
    };
    match last(&mut stack.elements, count) {
        Some(elements) => Some((test, elements)),
        None => None,
    }
}

// Puts a branch in front of these.
fn push_first(
    alloc: Global,
    stack: &mut Stack,
    text: &str,
    count: &str,
    branches: &mut Vec<(Expr, Vec<Element>)>,
) -> bool {
    match branch_of(alloc, stack, text, count) {
        Some(branch) => branches.insert(0, branch).is_ok(),
        None => false,
    }
}

fn if_of(
    alloc: Global,
    stack: &mut Stack,
    text: &str,
    count: &str,
    other: Option<Vec<Element>>,
) -> Option<Element> {
    let mut branches = Vec::new(alloc);
    if push_first(alloc, stack, text, count, &mut branches) {
        Some(Element::If { branches, other })
    } else {
        None
    }
}

fn put_if(alloc: Global, stack: &mut Stack, rest: &str) -> bool {
    let Some((text, count)) = rest.split_once(' ') else {
        return false;
    };
    let element = if_of(alloc, stack, text, count, None);
    push_element(stack, element)
}

fn else_of(
    alloc: Global,
    stack: &mut Stack,
    text: &str,
    count: &str,
    others: &str,
) -> Option<Element> {
    match last(&mut stack.elements, others) {
        Some(other) => if_of(alloc, stack, text, count, Some(other)),
        None => None,
    }
}

fn put_else(alloc: Global, stack: &mut Stack, rest: &str) -> bool {
    let Some((text, counts)) = rest.split_once(' ') else {
        return false;
    };
    let Some((count, others)) = counts.split_once(' ') else {
        return false;
    };
    let element = else_of(alloc, stack, text, count, others);
    push_element(stack, element)
}

// Puts a branch in front of those of this `if`.
fn add_first(
    alloc: Global,
    stack: &mut Stack,
    text: &str,
    count: &str,
    element: &mut Element,
) -> bool {
    match element {
        Element::If { branches, .. } => push_first(alloc, stack, text, count, branches),
        _ => false,
    }
}

// The last `if`, taken off the list, with a branch in front of the others.
fn first_of(alloc: Global, stack: &mut Stack, text: &str, count: &str) -> Option<Element> {
    let Some(mut element) = stack.elements.pop() else {
        return None;
    };
    if add_first(alloc, stack, text, count, &mut element) {
        Some(element)
    } else {
        None
    }
}

fn put_first(alloc: Global, stack: &mut Stack, rest: &str) -> bool {
    let Some((text, count)) = rest.split_once(' ') else {
        return false;
    };
    let element = first_of(alloc, stack, text, count);
    push_element(stack, element)
}

fn when_of(alloc: Global, rest: &str) -> Option<Element> {
    let Some((text, new)) = rest.split_once(' ') else {
        return None;
    };
    match contains(alloc, text) {
        Ok(condition) => rule(alloc, Some(condition), new),
        Err(_) => None,
    }
}

fn filter_of(test: Result<Expr, AllocError>) -> Option<Element> {
    match test {
        Ok(test) => Some(Element::Filter(test)),
        Err(_) => None,
    }
}

fn named_of(rest: &str) -> Option<Element> {
    match rest.parse::<u32>() {
        Ok(number) => Some(Element::Filter(Expr::Named(number))),
        Err(_) => None,
    }
}

fn delivery_of(alloc: Global, rest: &str) -> Option<Element> {
    match numbers(alloc, rest, ' ') {
        Some(dests) => Some(Element::Deliver(dests)),
        None => None,
    }
}

fn junction_of(stack: &mut Stack, rest: &str) -> Option<Element> {
    match last(&mut stack.paths, rest) {
        Some(channels) => Some(Element::Junction(channels)),
        None => None,
    }
}

// An element of one part.
fn element_of(alloc: Global, stack: &mut Stack, word: &str, rest: &str) -> Option<Element> {
    match word {
        "set" => rule(alloc, None, rest),
        "when" => when_of(alloc, rest),
        "has" => filter_of(contains(alloc, rest)),
        "tagged" => filter_of(tagged(alloc, rest)),
        "is" => named_of(rest),
        "to" => delivery_of(alloc, rest),
        "junction" => junction_of(stack, rest),
        "columns" => columns(alloc, rest),
        "keys" => keys(alloc, rest),
        _ => None,
    }
}

fn put_element(alloc: Global, stack: &mut Stack, word: &str, rest: &str) -> bool {
    let element = element_of(alloc, stack, word, rest);
    push_element(stack, element)
}

// Whether the part was understood.
fn put(alloc: Global, stack: &mut Stack, part: &str) -> bool {
    let Some((word, rest)) = part.split_once(' ') else {
        return false;
    };
    match word {
        "if" => put_if(alloc, stack, rest),
        "else" => put_else(alloc, stack, rest),
        "first" => put_first(alloc, stack, rest),
        "channel" => put_channel(alloc, stack, rest),
        "log" => put_log(alloc, stack, rest),
        _ => put_element(alloc, stack, word, rest),
    }
}

// Whether each part was understood, and no element is left over.
fn put_all(alloc: Global, stack: &mut Stack, parts: &str) -> bool {
    for part in parts.split("; ") {
        if !put(alloc, stack, part) {
            return false;
        }
    }
    stack.elements.is_empty()
}

fn filters(alloc: Global) -> Result<Vec<Expr>, AllocError> {
    let mut all = Vec::new(alloc);
    all.push(contains(alloc, "a")?)?;
    all.push(contains(alloc, "z")?)?;
    Ok(all)
}

fn dests(alloc: Global) -> Result<Vec<DestRule>, AllocError> {
    let mut all = Vec::new(alloc);
    for _ in 0..3 {
        all.push(DestRule {})?;
    }
    Ok(all)
}

// Inlets, destinations and filters, and no log paths.
fn without_paths(alloc: Global) -> Result<Forest, AllocError> {
    let dests = dests(alloc)?;
    let inlets = inlets(alloc)?;
    Ok(Forest {
        inlets,
        dests,
        filters: filters(alloc)?,
        rewrites: Vec::new(alloc),
        paths: Vec::new(alloc),
    })
}

// Log paths beside the inlets, destinations and filters.
fn forest_of(alloc: Global, paths: Vec<Path>) -> Result<Forest, AllocError> {
    let mut forest = without_paths(alloc)?;
    forest.paths = paths;
    Ok(forest)
}

/// The log paths of these parts, if each was understood and no element is left over.
pub(crate) fn read(alloc: Global, parts: &str) -> Result<Option<Forest>, AllocError> {
    let mut stack = Stack {
        elements: Vec::new(alloc),
        paths: Vec::new(alloc),
    };
    if !put_all(alloc, &mut stack, parts) {
        return Ok(None);
    }
    Ok(Some(forest_of(alloc, stack.paths)?))
}
