// What a site leaves, in plain values. Each proof step beside the end of a site is expensive, so only one function has
// it.
use crate::asserts::same;
use dine_link::{Lane, TxEnd};
use dine_rules::LetterKind;
use dine_site_thread::{Call, Port, SiteEnd, SiteFault};
use dine_test_diners::Taster;
use dine_token::{Entry, Fork, Token};
use dine_world::EventKind;
use std::process::Abort;

#[derive(Clone, Copy)]
pub struct Left<'a> {
    pub site: u32,
    // The number of its meals, and of those that failed; and the calls of its diner.
    pub meals: (u32, u32),
    pub calls: &'a [Call],
    // The edges of its forks, and the log that each of them has.
    pub forks: &'a [u32],
    pub log: &'a [Entry],
    // The edges of its tokens.
    pub tokens: &'a [u32],
    // The number of places at which it may still put letters, and of those at which it put Close.
    pub ports: (u32, u32),
    pub journal: &'a [EventKind],
    // The place and the kind of a letter that was handed back.
    pub stray: Option<(u32, LetterKind)>,
    pub fault: Option<SiteFault>,
}

// Checks that the fork has exactly this log.
pub fn has_log(rt: &impl Abort, fork: &Fork, log: &[Entry]) {
    assert!(rt; fork.len() as usize == log.len());
    for i in 0..fork.len() {
        same(rt, &fork.entry(i), &log[i as usize]);
    }
}

fn has_forks(rt: &impl Abort, forks: &[Fork], edges: &[u32], log: &[Entry]) {
    same(rt, &forks.len(), &edges.len());
    for (fork, edge) in forks.iter().zip(edges) {
        same(rt, &fork.edge(), edge);
        has_log(rt, fork, log);
    }
}

fn has_tokens(rt: &impl Abort, tokens: &[Token], edges: &[u32]) {
    same(rt, &tokens.len(), &edges.len());
    for (token, edge) in tokens.iter().zip(edges) {
        same(rt, &token.edge(), edge);
    }
}

fn has_ports<L: Lane>(rt: &impl Abort, ports: &[Port<L>], wanted: (u32, u32)) {
    let (mut live, mut shut) = (0u32, 0u32);
    for port in ports {
        match port.tx {
            TxEnd::Live(_) => live = live.wrapping_add(1),
            TxEnd::Shut(_) => shut = shut.wrapping_add(1),
        }
    }
    same(rt, &(live, shut), &wanted);
}

// Checks that the site left this.
pub fn is_left<L: Lane>(rt: &impl Abort, end: SiteEnd<L, Taster>, left: &Left) {
    same(rt, &end.site, &left.site);
    same(rt, &(end.ate, end.failed), &left.meals);
    same(rt, &end.diner.log.calls(), &left.calls);
    same(rt, &end.journal.as_slice(), &left.journal);
    let stray = end
        .stray
        .as_ref()
        .map(|stray| (stray.link, stray.letter.kind()));
    same(rt, &(stray, end.fault), &(left.stray, left.fault));
    has_forks(rt, end.forks.as_slice(), left.forks, left.log);
    has_tokens(rt, end.tokens.as_slice(), left.tokens);
    has_ports::<L>(rt, end.ports.as_slice(), left.ports);
}
