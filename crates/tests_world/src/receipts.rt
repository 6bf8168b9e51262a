//! Receipts that aren't the journal, and what shows it.
use crate::cluster::{Trial, ask, opened};
use cw_desk::{Disagree, Member, compare};
use cw_route::Call;
use cw_world::{Journal, Receipt};
use std::alloc::Global;

// What is found in place of the entry of a receipt of this number, unless the receipts are the journal.
#[derive(Clone, Copy, PartialEq, Eq, Drop)]
enum Found {
    Same,
    Entry(u64),
    Receipt(u64),
    Nothing(u64),
}

fn found_in(disagree: &Disagree) -> Found {
    match &disagree.found {
        Some(Member::Entry) => Found::Entry(disagree.at),
        Some(Member::Receipt(_)) => Found::Receipt(disagree.at),
        None => Found::Nothing(disagree.at),
    }
}

fn compared(journal: &Journal, receipts: Vec<Receipt>) -> Option<Found> {
    if receipts.len() != journal.entries().len() {
        return None;
    }
    match compare(journal.entries(), receipts) {
        Ok(_) => Some(Found::Same),
        Err(disagree) => Some(found_in(&disagree)),
    }
}

fn ask_once(alloc: Global, world: &mut Trial, call: &Call, receipts: &mut Vec<Receipt>) {
    if let Some(receipt) = ask(alloc, world, call) {
        let _ = receipts.push(receipt);
    }
}

fn ask_often(alloc: Global, world: &mut Trial, call: &Call, count: u32) -> Vec<Receipt> {
    let mut receipts = Vec::new(alloc);
    for _ in 0..count {
        ask_once(alloc, world, call, &mut receipts);
    }
    receipts
}

// A cluster is asked so often, and then twice: its journal, and the receipts of those two.
fn asked(alloc: Global, call: &Call, before: u32) -> (Journal, Vec<Receipt>) {
    let Some(mut world) = opened(alloc) else {
        return (Journal::none(), Vec::new(alloc));
    };
    let _ = world.spawn();
    let _ = ask_often(alloc, &mut world, call, before);
    let receipts = ask_often(alloc, &mut world, call, 2);
    let (_disks, journal) = world.give_back();
    (journal, receipts)
}

// The receipts of two clusters.
fn twice(alloc: Global) -> Vec<Receipt> {
    let (_, mut receipts) = asked(alloc, &Call::Connectors, 0);
    let (_, mut more) = asked(alloc, &Call::Connectors, 0);
    let _ = receipts.append(&mut more);
    receipts
}

#[test]
fn receipts_that_are_not_the_journal_disagree(rt: HostRuntime) {
    let (journal, own) = asked(rt.alloc(), &Call::Connectors, 0);
    assert!(rt; compared(&journal, own) == Some(Found::Same));
    let (_, others) = asked(rt.alloc(), &Call::Plugins, 0);
    assert!(rt; compared(&journal, others) == Some(Found::Entry(0)));
    let (longer, behind) = asked(rt.alloc(), &Call::Connectors, 2);
    assert!(rt; compared(&journal, behind) == Some(Found::Nothing(2)));
    assert!(rt; compared(&longer, twice(rt.alloc())) == Some(Found::Receipt(0)));
}
